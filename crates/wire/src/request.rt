// The commands, with the parts of the text that they name.
ghost use Rattle.std.specs.Prelude.{◌≡◌};
ghost use Rattle.model.specs.Reading.{command_in, asked};
ghost use Rattle.wire.specs.Request.{request_told, Exact};

use crate::field::{Fields, Target};
use crate::spelling::Spelling;

#[derive(Clone, Copy, Debug, PartialEq, Eq)]
pub enum Request<'a> {
    Load {
        program: Spelling<'a>,
    },
    Show {
        function: &'a [u8],
    },
    Names,
    RenameBind {
        at: Target<'a>,
        to: &'a [u8],
    },
    // Which of the function's own names, from 0.
    RenameParam {
        function: &'a [u8],
        index: u8,
        to: &'a [u8],
    },
    RenameFunction {
        function: &'a [u8],
        to: &'a [u8],
    },
    Extract {
        at: Target<'a>,
        to: &'a [u8],
    },
    InlineBind {
        at: Target<'a>,
    },
    InlineCall {
        at: Target<'a>,
    },
    TurnIf {
        at: Target<'a>,
    },
    DropFunction {
        function: &'a [u8],
    },
    Undo,
}

// A command of the kind that its first byte says, from its other bytes. The numbers are the spelling, and this is their only reader:
// an enum of the kinds would only say the names of the commands twice.
fn read_kind(kind: u8, text: &[u8]) -> Option<Request<'_>>
    ensures { request_told result ≡ command_in kind text.now }
{
    let mut fields = Fields { rest: text };
    match kind {
        1 => Some(Request::Load {
            program: Spelling::new(text)?,
        }),
        2 => Some(Request::Show {
            function: fields.last_name()?,
        }),
        3 => text.is_empty().then_some(Request::Names),
        4 => Some(Request::RenameBind {
            at: fields.target()?,
            to: fields.last_name()?,
        }),
        5 => Some(Request::RenameParam {
            function: fields.name()?,
            index: fields.index()?,
            to: fields.last_name()?,
        }),
        6 => Some(Request::RenameFunction {
            function: fields.name()?,
            to: fields.last_name()?,
        }),
        7 => Some(Request::Extract {
            at: fields.target()?,
            to: fields.last_name()?,
        }),
        8 => Some(Request::InlineBind {
            at: fields.last_target()?,
        }),
        9 => Some(Request::InlineCall {
            at: fields.last_target()?,
        }),
        10 => Some(Request::TurnIf {
            at: fields.last_target()?,
        }),
        11 => Some(Request::DropFunction {
            function: fields.last_name()?,
        }),
        12 => text.is_empty().then_some(Request::Undo),
        _ => None,
    }
}

// The command that is spelled so, if there is one.
pub fn read(text: &[u8]) -> Option<Request<'_>>
    ensures value { request_told result ≡ asked text.now }
    ensures exact { Exact text.now result }
{
    let (kind, rest) = text.split_first()?;
    read_kind(*kind, rest)
}
