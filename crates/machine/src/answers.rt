// Answers in rows: a function as it is spelled, and functions' names one after the other.
ghost use Rattle.std.specs.Prelude.{◌≡◌};
ghost use Rattle.machine.specs.Machine.{show_step, names_step};
ghost use Rattle.machine.specs.Told.{Tells};

use crate::rows::{Row, copy_row, shown};
use crate::told::{Refusal, Told};
use expr::skip::skip_function;
use expr::source::Source;
use expr::token::{Span, skip_name};
use memory::layout::{MARK, Memory, current};
use wire::program::find_function;

// A mark past any program: nothing is left to show.
const NO_MORE: u64 = 65537;

// One row: the function as it is spelled.
pub fn show(memory: &mut Memory, function: &[u8], out: &mut Row) -> Told
    ensures { Tells (show_step memory.old function.now) result out.old memory.new out.new }
{
    let program = current(memory);
    let from = find_function(&program, function).ok_or(Refusal::Missing)?;
    let to = skip_function(&program, from).ok_or(Refusal::Missing)?;
    let row = Span { from, to };
    copy_row(&program, row, out);
    memory[MARK] = NO_MORE;
    shown(row)
}

// The name of the function that begins at `at`, or the end of the answer.
pub fn show_name(memory: &mut Memory, at: usize, out: &mut Row) -> Told
    ensures { Tells (names_step memory.old at) result out.old memory.new out.new }
{
    let program = current(memory);
    if at >= program.len() {
        memory[MARK] = 0;
        return Ok(None);
    }
    let to = skip_name(&program, at).ok_or(Refusal::Misuse)?;
    let next = skip_function(&program, at).ok_or(Refusal::Misuse)?;
    let from = at + 8;
    let row = Span { from, to };
    copy_row(&program, row, out);
    memory[MARK] = next as u64 + 1;
    shown(row)
}
