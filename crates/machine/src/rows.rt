// Rows that are shown: bytes of a program put at the beginning of the lent row.
ghost use Rattle.std.specs.Prelude.{◌≡◌, ◌-◌, ◌≤◌, ◌++◌, length, drop};
ghost use Rattle.expr.specs.Token.{spelled_in};

use crate::told::Told;
use expr::source::Source;
use expr::token::Span;

// A row has at most so many bytes.
pub const ROW_BYTES: usize = 131072;

pub type Row = [u8; ROW_BYTES];

// The bytes in the span, as far as it lies within the source, at the beginning of the row; the others stay.
pub fn copy_row<S: Source>(src: &S, span: Span, row: &mut [u8])
    requires { length (spelled_in (S.bytes src.now) span) ≤ length row.old }
    ensures { row.new ≡ spelled_in (S.bytes src.now) span ++ drop (length (spelled_in (S.bytes src.now) span)) row.old }
{
    let span = span.within(src.len());
    for (k, byte) in row[..span.len()].iter_mut().enumerate() {
        *byte = src.at(span.from + k);
    }
}

// The row is as long as the span.
pub fn shown(span: Span) -> Told
    ensures { result ≡ Ok (Some (span.to - span.from)) }
{
    Ok(Some(span.len() as u64))
}
