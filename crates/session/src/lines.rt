// The lines of a session: one command in hex, `-` for the command of no bytes; blank lines and comments.
ghost use Rattle.std.specs.Prelude.{◌≡◌, ◌≤◌, length};
ghost use Rattle.session.specs.Lines.{blank, margin_of, without_end};
ghost use Rattle.session.specs.LineResults.{ReadsBody, ReadsLine};

use crate::hex::{HexError, read_hex};
use std::alloc::Global;

fn is_blank(byte: u8) -> bool
    ensures { result ≡ blank byte }
{
    matches!(byte, b' ' | b'\t' | b'\r' | b'\n')
}

fn leading_blanks(line: &[u8]) -> usize
    ensures value { result ≡ margin_of line.now }
    ensures within { result ≤ length line.now }
{
    line.iter().take_while(|&&byte| is_blank(byte)).count()
}

fn without_trailing_blanks(line: &[u8]) -> &[u8]
    ensures { result.now ≡ without_end line.now }
{
    let trailing = line
        .iter()
        .rev()
        .take_while(|&&byte| is_blank(byte))
        .count();
    &line[..line.len() - trailing]
}

fn read_body(heap: Global, body: &[u8]) -> Result<Option<Vec<u8>>, HexError>
    ensures { ReadsBody body.now result }
{
    match body {
        [] | [b'#', ..] => Ok(None),
        [b'-'] => Ok(Some(Vec::new(heap))),
        digits => Ok(Some(read_hex(heap, digits)?)),
    }
}

// The command that a line says, if it says one. Blanks and line ends around it are ignored; positions in an
// error count from its first byte.
pub fn read_line(heap: Global, line: &[u8]) -> Result<Option<Vec<u8>>, HexError>
    ensures { ReadsLine line.now result }
{
    let margin = leading_blanks(line);
    let body = without_trailing_blanks(&line[margin..]);
    read_body(heap, body).map_err(|error| error.beyond(margin))
}
