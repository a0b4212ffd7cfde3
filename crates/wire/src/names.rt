// Names in a row of bytes, one after the other.
ghost use Rattle.std.specs.Prelude.{◌≡◌, ◌+◌, IfSome};
ghost use Rattle.std.specs.Iterator.{item_count};
ghost use Rattle.std.specs.Option.{option_map};
ghost use Rattle.language.specs.Contents.{name_there};
ghost use Rattle.language.specs.Names.{has, distinct};
ghost use Rattle.language.specs.Reading.{number_at};
ghost use Rattle.wire.specs.Walk.{YieldsFirstOf, names_counted, names_left, names_told, places_left};

use expr::compare::same_names;
use expr::source::Source;
use expr::token::{number, skip_name};

// So many names from `at` on: where each begins. They end early where no name stands.
#[derive_where(Clone, Copy)]
pub struct Names<'a, S> {
    pub src: &'a S,
    pub count: u64,
    pub at: usize,
}

impl<S: Source> Iterator for Names<'_, S> {
    type Item = usize;

    ghost next_gives = { YieldsFirstOf (places_left S.bytes) (λ s. s.src) };

    ghost remaining = { item_count (places_left S.bytes) };

    fn next(&mut self) -> Option<usize> {
        let at = self.at;
        self.count = self.count.checked_sub(1)?;
        self.at = skip_name(self.src, at)?;
        Some(at)
    }
}

impl<'a, S: Source> Names<'a, S> {
    // The names behind their count, which stands there; none if no number does.
    pub fn counted(src: &'a S, at: usize) -> Option<Names<'a, S>>
        ensures value { names_told S.bytes result ≡ names_counted (S.bytes src.now) at }
        ensures row { IfSome result (λ names. names.src.now ≡ src.now) }
        ensures place { IfSome result (λ names. names.at ≡ at + 8) }
        ensures count { option_map (λ names. names.count) result ≡ number_at (S.bytes src.now) at }
    {
        let count = number(src, at)?;
        Some(Names {
            src,
            count,
            at: at + 8,
        })
    }

    // The name at `at` is one of them.
    pub fn has(&self, at: usize) -> bool
        ensures { result ≡ has (names_left S.bytes self.now) (name_there (S.bytes self.now.src.now) at) }
    {
        let src = self.src;
        let mut names = *self;
        names.any(|other| same_names(src, at, other))
    }

    // No two of them are the same.
    pub fn differ(&self) -> bool
        ensures { result ≡ distinct (names_left S.bytes self.now) }
    {
        let mut later = *self;
        while let Some(name) = later.next() {
            if later.has(name) {
                return false;
            }
        }
        true
    }
}
