// Functions in a row of bytes, one after the other.
ghost use Rattle.std.specs.Prelude.{◌≡◌};
ghost use Rattle.std.specs.Iterator.{item_count};
ghost use Rattle.wire.specs.Walk.{YieldsFirstOf, functions_from, functions_left, next_place};

use expr::skip::skip_function;
use expr::source::Source;
use expr::token::skip_name;

// Where a function begins, and where its name ends.
#[derive(Clone, Copy, Debug, PartialEq, Eq)]
pub struct Function {
    pub at: usize,
    pub params: usize,
}

// So many functions from `first` on. They end early where no function stands. One is passed over only when the next is asked for.
#[derive(Drop)]
pub struct Functions<'a, S> {
    pub src: &'a S,
    pub count: u64,
    pub first: usize,
    // Where the one before begins.
    pub before: Option<usize>,
}

impl<'a, S: Source> Functions<'a, S> {
    pub fn new(src: &'a S, count: u64, first: usize) -> Functions<'a, S>
        ensures { functions_left S.bytes result ≡ functions_from count (S.bytes src.now) first }
    {
        Functions {
            src,
            count,
            first,
            before: None,
        }
    }

    // Where the next one begins.
    fn next_place(&self) -> Option<usize>
        ensures { result ≡ next_place (S.bytes self.now.src.now) self.now.first self.now.before }
    {
        match self.before {
            None => Some(self.first),
            Some(before) => skip_function(self.src, before),
        }
    }
}

impl<S: Source> Iterator for Functions<'_, S> {
    type Item = Function;

    ghost next_gives = { YieldsFirstOf (functions_left S.bytes) (λ s. s.src) };

    ghost remaining = { item_count (functions_left S.bytes) };

    fn next(&mut self) -> Option<Function> {
        self.count = self.count.checked_sub(1)?;
        let at = self.next_place()?;
        let params = skip_name(self.src, at)?;
        self.before = Some(at);
        Some(Function { at, params })
    }
}
