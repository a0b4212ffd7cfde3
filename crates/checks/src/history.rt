// Going back, with a history that is written into the memory word by word.
use crate::bench::Bench;
use crate::commands::{LOAD_ONE, NAMES, UNDO};
use memory::layout::{CURRENT, LAST_SLOT, LENGTHS, MAX_OLDER, OLDER, SLOTS};
use std::test::*;

// The words that the program of one function takes.
const ONE_WORDS: usize = 5;

#[test]
fn the_eighth_older_program_comes_back(rt: HostRuntime) -> Result<(), Fail> {
    let mut bench = Bench::fresh(rt.alloc())?;
    bench.does(LOAD_ONE)?;
    for k in 0..ONE_WORDS {
        let word = bench.word(CURRENT + k)?;
        bench.set_word(LAST_SLOT + k, word)?;
        bench.set_word(CURRENT + k, 0)?;
    }
    let length = bench.word(LENGTHS)?;
    bench.set_word(LENGTHS + SLOTS - 1, length)?;
    bench.set_word(LENGTHS, 0)?;
    bench.set_word(OLDER, MAX_OLDER)?;
    for _ in 0..MAX_OLDER {
        bench.does(NAMES)?;
        bench.does(UNDO)?;
    }
    bench.shows(NAMES, b"f")?;
    bench.refuses(UNDO, 9)
}
