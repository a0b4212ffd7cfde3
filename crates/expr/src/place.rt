// Places: an expression within another, by the numbers of parts from the outside.
ghost use Rattle.std.specs.Prelude.{◌≡◌, length, None, nat_lt};
ghost use Rattle.expr.specs.Token.{kind_arity};
ghost use Rattle.language.specs.Basics.{pick};
ghost use Rattle.language.specs.Reading.{ends, place_at};

use crate::skip::{arity, skip_many};
use crate::source::Source;
use crate::token::{Token, read_token};

// Where the part of that number begins, of the expression whose head was read.
fn part_of<S: Source>(src: &S, token: Token, part: usize) -> Option<usize>
    ensures { result ≡ pick (nat_lt part (kind_arity token.kind)) (ends part (length (S.bytes src.now)) (S.bytes src.now) token.end) None }
{
    if part >= arity(token.kind) {
        return None;
    }
    skip_many(src, part, token.end)
}

// Where what stands at the place begins, in the expression at `at`. By recursion on the place, one part after the other.
pub fn follow<S: Source>(src: &S, place: &[u8], at: usize) -> Option<usize>
    ensures { result ≡ place_at (S.bytes src.now) place.now at }
{
    let [part, rest @ ..] = place else {
        return Some(at);
    };
    let token = read_token(src, at)?;
    let next = part_of(src, token, usize::from(*part))?;
    follow(src, rest, next)
}
