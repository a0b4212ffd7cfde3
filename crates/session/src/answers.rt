// What is printed of a machine's answers, a line to each.
ghost use Rattle.std.specs.Prelude.{◌≡◌, OnOk, Some};
ghost use Rattle.session.specs.Answers.{ending_text, with_ending, with_row};

use crate::hex::write_hex;
use std::alloc::AllocError;
use std::fmt;

// How a command ends. A `Result` would be no plainer: it could not have the text of its own line. A refusal is its number, which is printed:
// nothing here knows what it is of.
#[derive(Clone, Copy, Debug, PartialEq, Eq)]
pub enum Ending {
    Done,
    Refused(u64),
}

impl fmt::Display for Ending {
    ghost output = { λ ending. Some (ending_text ending) };

    fn fmt<W: fmt::Write>(&self, f: &mut fmt::Formatter<W>) -> fmt::Result {
        match self {
            Ending::Done => write!(f, "done"),
            Ending::Refused(reason) => write!(f, "refused {reason}"),
        }
    }
}

// Appends a row's line. Where memory fails, `out` may have a part of it.
pub fn write_row(out: &mut Vec<u8>, row: &[u8]) -> Result<(), AllocError>
    ensures { OnOk result (out.new.items ≡ with_row out.old.items row.now) }
{
    out.extend_from_slice(b"shows ")?;
    write_hex(out, row)?;
    out.extend_from_slice(b"\n")
}

// Appends the last line of a command, likewise.
pub fn write_ending(out: &mut Vec<u8>, ending: Ending) -> Result<(), AllocError>
    ensures { OnOk result (out.new.items ≡ with_ending out.old.items ending) }
{
    match ending {
        // By hand, since this is how most commands end: nothing is formatted, and no memory taken where there is room.
        Ending::Done => out.extend_from_slice(b"done\n"),
        Ending::Refused(_) => {
            let line = format!(in *out.allocator(); "{ending}\n")?;
            out.extend_from_slice(line.as_bytes())
        }
    }
}
