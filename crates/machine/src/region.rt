// Regions of the memory that are made zeros.
ghost use Rattle.std.specs.Prelude.{◌≡◌, ◌-◌, ◌≤◌};
ghost use Rattle.memory.specs.Layout.{memory_words, put_words, zero_words};

use memory::layout::Memory;
use std::ops::Range;

// The words in the range are zeros.
pub fn clear(memory: &mut Memory, words: Range<usize>)
    requires { (words.start ≤ words.end) × (words.end ≤ memory_words) }
    ensures { memory.new ≡ put_words memory.old words.start (zero_words (words.end - words.start)) }
{
    memory[words].fill(0);
}
