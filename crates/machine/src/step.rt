// One step of the machine.
ghost use Rattle.std.specs.Prelude.{◌≡◌};
ghost use Rattle.machine.specs.Machine.{ask_step, gone_on, by_event, own};
ghost use Rattle.machine.specs.Told.{KindRead, kind_number, Tells, StepSays, step_fits};
ghost use Rattle.model.specs.Engine.{said};
ghost use Rattle.model.specs.Known.{basics};
ghost use Rattle.model.specs.Whole.{Whole};
ghost use Rattle.wire.specs.Request.{request_asks};

use crate::answers::{show, show_name};
use crate::history::undo;
use crate::load::load;
pub use crate::rows::ROW_BYTES;
use crate::rows::Row;
use crate::told::{Refusal, Told};
use memory::layout::{MARK, MEMORY_WORDS, Memory, end_answer, memory_fits};
use wire::request::{Request, read};

// The numbers of the kinds, as callers in other languages say them.
pub const SAID: u64 = 0;

pub const GO_ON: u64 = 1;

// A command is said, or the machine is to go on.
#[derive(Clone, Copy, Debug, PartialEq, Eq)]
pub enum Kind {
    Said,
    GoOn,
}

impl From<Kind> for u64 {
    ghost from_gives = { λ kind number. number ≡ kind_number kind };

    fn from(kind: Kind) -> u64 {
        match kind {
            Kind::Said => SAID,
            Kind::GoOn => GO_ON,
        }
    }
}

// A number of no kind is misuse.
impl TryFrom<u64> for Kind {
    type Error = Refusal;

    ghost try_from_gives = { KindRead };

    fn try_from(number: u64) -> Result<Kind, Refusal> {
        match number {
            SAID => Ok(Kind::Said),
            GO_ON => Ok(Kind::GoOn),
            _ => Err(Refusal::Misuse),
        }
    }
}

// Where a program's first function begins, after the count.
const FIRST_FUNCTION: usize = 8;

// A command that was read.
fn answer(memory: &mut Memory, request: Request<'_>, out: &mut Row) -> Told
    ensures { Tells (ask_step memory.old (request_asks request.entry)) result out.old memory.new out.new }
{
    match request {
        Request::Load { program } => load(memory, program),
        Request::Show { function } => show(memory, function, out),
        Request::Names => show_name(memory, FIRST_FUNCTION, out),
        Request::Undo => undo(memory),
        Request::RenameBind { .. }
        | Request::RenameParam { .. }
        | Request::RenameFunction { .. }
        | Request::Extract { .. }
        | Request::InlineBind { .. }
        | Request::InlineCall { .. }
        | Request::TurnIf { .. }
        | Request::DropFunction { .. } => Err(Refusal::NotKnown),
    }
}

// A command is said: the answer under way ends, whatever becomes of the new one.
fn obey(memory: &mut Memory, text: &[u8], out: &mut Row) -> Told
    ensures { Tells (by_event memory.old (said text.now)) result out.old memory.new out.new }
{
    end_answer(memory);
    let request = read(text).ok_or(Refusal::NotACommand)?;
    answer(memory, request, out)
}

// The next row of the answer under way, or its end.
fn go_on(memory: &mut Memory, out: &mut Row) -> Told
    ensures { Tells (gone_on memory.old) result out.old memory.new out.new }
{
    let mark = memory[MARK];
    if mark == 0 {
        return Err(Refusal::Misuse);
    }
    show_name(memory, mark as usize - 1, out)
}

// One step: `kind` says whether a command is said, in `text`, or the machine is to go on. A row that is shown stands at the beginning of `out`.
// Kind and lengths are numbers, since this is what other languages call: what they should not be is misuse.
pub fn step(memory: &mut [u64], kind: u64, text: &[u8], out: &mut [u8]) -> Told
    ensures says { StepSays own memory.old kind text.now out.old (step_fits own memory.old kind out.old) result memory.new out.new }
    ensures whole { Whole basics own }
{
    let kind = Kind::try_from(kind)?;
    let row = out.first_chunk_mut::<ROW_BYTES>().ok_or(Refusal::Misuse)?;
    let memory = memory
        .as_mut_array::<MEMORY_WORDS>()
        .ok_or(Refusal::Misuse)?;
    if !memory_fits(memory) {
        return Err(Refusal::Misuse);
    }
    match kind {
        Kind::Said => obey(memory, text, row),
        Kind::GoOn => go_on(memory, row),
    }
}
