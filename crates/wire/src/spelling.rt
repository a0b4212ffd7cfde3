// Bytes that are a program's spelling.
ghost use Rattle.std.specs.Prelude.{◌≡◌, true, is_some, IfSome};
ghost use Rattle.language.specs.Reading.{is_program};

use expr::skip::is_program;
use expr::source::{Source, Text};

// A program's spelling, whole.
#[derive(Clone, Copy, Debug, PartialEq, Eq)]
pub struct Spelling<'a> {
    pub bytes: &'a [u8],
    pub ghost whole: { is_program bytes.now ≡ true },
}

impl<'a> Spelling<'a> {
    // The bytes, if they are one.
    pub fn new(bytes: &'a [u8]) -> Option<Spelling<'a>>
        ensures whole { is_some result ≡ is_program bytes.now }
        ensures bytes { IfSome result (λ program. program.bytes.now ≡ bytes.now) }
    {
        if !is_program(&Text { bytes }) {
            return None;
        }
        Some(Spelling { bytes })
    }
}
