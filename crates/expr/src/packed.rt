// A row of bytes in words, eight bytes to a word, the highest first.
ghost use Rattle.std.specs.Prelude.{◌≡◌, ℕ, ◌<◌, take, slice_index};
ghost use Rattle.language.specs.Basics.{flat};
ghost use Rattle.language.specs.Bytes.{eight};

use crate::source::Source;

// Words and a length, since a program lies so in the lent memory.
#[derive(Clone, Copy)]
pub struct Packed<'a> {
    pub words: &'a [u64],
    // How many bytes of them the row has.
    pub len: usize,
}

// The byte of that number, from the highest.
fn byte_of(word: u64, number: usize) -> u8
    requires { number < 8 }
    ensures { result ≡ slice_index (eight word) number }
{
    word.to_be_bytes()[number]
}

// The word there, or 0 past the end.
fn word_at(words: &[u64], i: usize) -> u64
    ensures { result ≡ slice_index words.now i }
{
    words.get(i).copied().unwrap_or(0)
}

impl Source for Packed<'_> {
    ghost bytes = { λ s. take s.len (flat eight s.words.now) };

    fn len(&self) -> usize {
        self.len.min(self.words.len() * 8)
    }

    fn at(&self, i: usize) -> u8 {
        if i >= self.len {
            return 0;
        }
        byte_of(word_at(self.words, i / 8), i % 8)
    }
}
