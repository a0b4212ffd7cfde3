// Steps that are lent the wrong things, or told of no kind.
use crate::bench::Bench;
use crate::commands::NAMES;
use machine::step::SAID;
use memory::layout::{LENGTHS, MARK, OLDER, SLOTS};
use std::alloc::Global;
use std::test::*;

#[test]
fn a_memory_of_another_length(rt: HostRuntime) -> Result<(), Fail> {
    let heap = rt.alloc();
    let mut short = Bench::lent(heap, 262143, 131072)?;
    short.misused(SAID, NAMES)?;
    let mut long = Bench::lent(heap, 262145, 131072)?;
    long.misused(SAID, NAMES)
}

#[test]
fn a_row_too_short(rt: HostRuntime) -> Result<(), Fail> {
    let heap = rt.alloc();
    let mut short = Bench::lent(heap, 262144, 131071)?;
    short.misused(SAID, NAMES)?;
    let mut long = Bench::lent(heap, 262144, 131073)?;
    long.does(NAMES)
}

#[test]
fn a_kind_that_is_none(rt: HostRuntime) -> Result<(), Fail> {
    let mut bench = Bench::fresh(rt.alloc())?;
    bench.misused(2, NAMES)?;
    bench.misused(u64::MAX, NAMES)
}

// The largest number that the word may hold is no misuse; one more is.
fn limited(heap: Global, at: usize, most: u64) -> Result<(), Fail> {
    let mut bench = Bench::fresh(heap)?;
    bench.set_word(at, most)?;
    bench.refuses(b"no command", 1)?;
    bench.set_word(at, most.saturating_add(1))?;
    bench.misused(SAID, NAMES)
}

#[test]
fn a_header_out_of_its_limits(rt: HostRuntime) -> Result<(), Fail> {
    let heap = rt.alloc();
    limited(heap, MARK, 65537)?;
    limited(heap, OLDER, 8)?;
    for k in 0..SLOTS {
        limited(heap, LENGTHS + k, 65528)?;
    }
    Ok(())
}
