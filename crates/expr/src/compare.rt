// Names in rows of bytes compared.
ghost use Rattle.std.specs.Prelude.{◌≡◌};
ghost use Rattle.expr.specs.Token.{spelled_in};
ghost use Rattle.language.specs.Basics.{same};
ghost use Rattle.language.specs.Contents.{name_there};

use crate::source::{Source, Text};
use crate::token::{Span, read_name};

// The bytes in one span are those in the other.
pub fn same_spans<A: Source, B: Source>(a: &A, x: Span, b: &B, y: Span) -> bool
    ensures { result ≡ same (spelled_in (A.bytes a.now) x) (spelled_in (B.bytes b.now) y) }
{
    let x = x.within(a.len());
    let y = y.within(b.len());
    x.len() == y.len()
        && (x.from..x.to)
            .zip(y.from..y.to)
            .all(|(i, j)| a.at(i) == b.at(j))
}

// Where the bytes of the name there lie; an empty span where no name stands.
fn name_span<S: Source>(src: &S, at: usize) -> Span
    ensures { spelled_in (S.bytes src.now) result ≡ name_there (S.bytes src.now) at }
{
    read_name(src, at).unwrap_or(Span { from: 0, to: 0 })
}

// The name there is `name`.
pub fn is_name<S: Source>(src: &S, at: usize, name: &[u8]) -> bool
    ensures { result ≡ same (name_there (S.bytes src.now) at) name.now }
{
    let whole = Span {
        from: 0,
        to: name.len(),
    };
    same_spans(src, name_span(src, at), &Text { bytes: name }, whole)
}

// The names at the two places are the same.
pub fn same_names<S: Source>(src: &S, at: usize, other: usize) -> bool
    ensures { result ≡ same (name_there (S.bytes src.now) at) (name_there (S.bytes src.now) other) }
{
    same_spans(src, name_span(src, at), src, name_span(src, other))
}
