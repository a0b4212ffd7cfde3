// Rows of bytes that spellings are read from, wherever they lie.
ghost use Rattle.std.specs.Prelude.{◌≡◌, ℕ, List, length, slice_index};

// A row of bytes, by the list of what it holds. Functions take the row and where to look in it: a cursor of both would be made anew for nearly
// every call, since only the place changes.
pub trait Source {
    ghost bytes: { Self → List ℕ };

    fn len(&self) -> usize
        ensures { result ≡ length (bytes self.now) };

    // The byte there, or 0 past the end.
    fn at(&self, i: usize) -> u8
        ensures { result ≡ slice_index (bytes self.now) i };
}

// A command's text.
#[derive(Clone, Copy)]
pub struct Text<'a> {
    pub bytes: &'a [u8],
}

impl Source for Text<'_> {
    ghost bytes = { λ s. s.bytes.now };

    fn len(&self) -> usize {
        self.bytes.len()
    }

    fn at(&self, i: usize) -> u8 {
        self.bytes.get(i).copied().unwrap_or(0)
    }
}
