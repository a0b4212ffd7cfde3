// The machine's memory: which word is what.
ghost use Rattle.std.specs.Prelude.{◌≡◌, ◌≤◌, length, take, nat_le, slice_set};
ghost use Rattle.std.specs.List.{list_all};
ghost use Rattle.language.specs.Basics.{flat};
ghost use Rattle.language.specs.Bytes.{eight};
ghost use Rattle.memory.specs.Layout.{memory_fits, held};

use expr::packed::Packed;
use expr::skip::MAX_BYTES;

pub const MEMORY_WORDS: usize = 262144;
// Where the next row of an answer under way begins, plus 1; 0 if none is.
pub const MARK: usize = 0;
// How many older programs there are to go back to.
pub const OLDER: usize = 1;
// The nine programs' lengths in bytes, each less the 8 of its count.
pub const LENGTHS: usize = 2;

pub const SLOTS: usize = 9;

// Nine slots of so many words each follow the header.
pub const SLOT_WORDS: usize = 8192;

pub const CURRENT: usize = 16;

pub const NEWEST_OLDER: usize = CURRENT + SLOT_WORDS;

pub const LAST_SLOT: usize = CURRENT + 8 * SLOT_WORDS;
// Where a new program is written, and where the frames begin.
pub const BUILD: usize = CURRENT + 9 * SLOT_WORDS;

pub const FRAMES: usize = BUILD + SLOT_WORDS;

// Where a walk lists what it finds, behind 8,192 frames of five words.
pub const LIST: usize = FRAMES + 5 * SLOT_WORDS;

pub const RESERVE: usize = LIST + SLOT_WORDS;

pub const MAX_MARK: u64 = 65537;

pub const MAX_OLDER: u64 = 8;

pub const MAX_LENGTH: u64 = 65528;

pub type Memory = [u64; MEMORY_WORDS];

// The words of one program: a slot, the build area, or the list.
pub type Slot = [u64; SLOT_WORDS];

// What a walk or a check keeps while it is under way.
pub type Frames = [u64; 5 * SLOT_WORDS];

fn lengths_fit(lengths: &[u64]) -> bool
    ensures { result ≡ list_all (λ n. nat_le n 65528) lengths.now }
{
    lengths.iter().all(|length| *length <= MAX_LENGTH)
}

// A memory of the machine's length, and the header's words within their limits.
pub fn memory_fits(memory: &[u64]) -> bool
    ensures { result ≡ memory_fits memory.now }
{
    memory.len() == MEMORY_WORDS
        && memory[MARK] <= MAX_MARK
        && memory[OLDER] <= MAX_OLDER
        && lengths_fit(&memory[LENGTHS..LENGTHS + SLOTS])
}

// No answer is under way.
pub fn end_answer(memory: &mut Memory)
    ensures { memory.new ≡ slice_set memory.old 0 0 }
{
    memory[MARK] = 0;
}

// The current program's bytes, in the header and slots of a memory.
pub fn current(memory: &[u64]) -> Packed<'_>
    requires { 8208 ≤ length memory.now }
    ensures { take result.len (flat eight result.words.now) ≡ held 0 memory.now }
{
    Packed {
        words: &memory[CURRENT..NEWEST_OLDER],
        // No slot has more: said here, since else each byte that is read is tested for it.
        len: (memory[LENGTHS] as usize).saturating_add(8).min(MAX_BYTES),
    }
}
