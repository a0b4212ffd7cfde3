// Renaming what is bound.
//
//     main(x, y) = let a be x - 2 in if y < a then twice(tell a, y) else x
//
// The let called d, and its uses: let d be x - 2 in if y < d then twice(tell d, y) else x. Called x, the x at the end would be another x: refused.
ghost use Rattle.std.specs.Prelude.{◌≡◌, ◌-◌, ◌≤◌, length};
ghost use Rattle.machine.specs.History.{accepted};
ghost use Rattle.machine.specs.Rename.{renamed_step, rename_bind_step, rename_param_step};
ghost use Rattle.expr.specs.Token.{spelled_in};
ghost use Rattle.machine.specs.Renamed.{program_renamed, Written};
ghost use Rattle.machine.specs.Told.{Does};
ghost use Rattle.scope.specs.Binding.{binder_of};
ghost use Rattle.memory.specs.Layout.{held, put_words, zero_words};

use crate::history::commit;
use crate::region::clear;
use crate::told::{Refusal, Told};
use expr::place::follow;
use expr::source::Source;
use memory::layout::{BUILD, FRAMES, Frames, Memory, RESERVE, Slot, current};
use scope::binder::{Binder, body_of, let_at, other_own_is, own_name};
use scope::renaming::Renaming;
use scope::replace::write_renamed;
use scope::uses::list_uses;
use wire::field::Target;
use wire::program::find_function;

// What stands in the build area is the current program, and the one before can be gone back to.
fn accept(memory: &mut Memory, len: usize)
    ensures { memory.new ≡ accepted memory.old len }
{
    clear(memory, FRAMES..RESERVE);
    commit(memory, len as u64);
    clear(memory, BUILD..FRAMES);
}

// The program with the new name, in the build area: how many bytes it has.
fn write_new<S: Source>(
    renaming: &Renaming<'_, S>,
    body: usize,
    area: &mut Slot,
    frames: &mut Frames,
    list: &mut Slot,
) -> Result<usize, Refusal>
    ensures long { (length area.new ≡ 8192) × (length frames.new ≡ 40960) × (length list.new ≡ 8192) }
    ensures written { let bs = S.bytes renaming.now.program.now in Written (program_renamed bs (spelled_in bs renaming.now.from) renaming.now.to.now (renaming.now.from.from - 8) body) result area.new }
{
    let count = list_uses(renaming, body, frames, list).ok_or(Refusal::Captured)?;
    write_renamed(renaming, &list[..count], area).ok_or(Refusal::TooLarge)
}

// What the binder gives is called `to`, and so are its uses: 5 where one would be captured, 7 where the program would be too large.
fn rename(memory: &mut Memory, binder: Binder, to: &[u8]) -> Told
    ensures { Does (renamed_step memory.old to.now (binder_of (held 0 memory.old) binder)) result memory.new }
{
    let (front, areas) = memory.split_at_mut(BUILD);
    let (area, areas) = areas.split_first_chunk_mut().unwrap();
    let (frames, areas) = areas.split_first_chunk_mut().unwrap();
    let (list, _reserve) = areas.split_first_chunk_mut().unwrap();
    let renaming = Renaming {
        program: &current(front),
        from: binder.name,
        to,
    };
    match write_new(&renaming, binder.body, area, frames, list) {
        Ok(len) => {
            accept(memory, len);
            Ok(None)
        }
        Err(why) => {
            clear(memory, BUILD..RESERVE);
            Err(why)
        }
    }
}

// The let at the place is called `to`.
pub fn rename_bind(memory: &mut Memory, at: Target<'_>, to: &[u8]) -> Told
    ensures { Does (rename_bind_step memory.old at.entry.function.now at.entry.place.now to.now) result memory.new }
{
    let program = current(memory);
    let function = find_function(&program, at.function).ok_or(Refusal::Missing)?;
    let body = body_of(&program, function).ok_or(Refusal::Missing)?;
    let place = follow(&program, at.place, body).ok_or(Refusal::Missing)?;
    let bind = let_at(&program, place).ok_or(Refusal::WrongKind)?;
    rename(memory, bind, to)
}

// The own name of that number is called `to`.
pub fn rename_param(memory: &mut Memory, function: &[u8], index: u8, to: &[u8]) -> Told
    ensures { Does (rename_param_step memory.old function.now index to.now) result memory.new }
{
    let program = current(memory);
    let at = find_function(&program, function).ok_or(Refusal::Missing)?;
    let own = own_name(&program, at, index).ok_or(Refusal::Missing)?;
    if other_own_is(&program, at, index, to) {
        return Err(Refusal::Captured);
    }
    rename(memory, own, to)
}
