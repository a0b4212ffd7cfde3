// Programs that come and go: going back to an older one, and making a new one the current one.
ghost use Rattle.std.specs.Prelude.{◌≡◌};
ghost use Rattle.machine.specs.History.{moved_down, moved_up, placed, committed};
ghost use Rattle.machine.specs.Machine.{undo_step};
ghost use Rattle.machine.specs.Told.{Does};

use crate::told::{Refusal, Told};
use memory::layout::{
    BUILD, CURRENT, FRAMES, LAST_SLOT, LENGTHS, MAX_OLDER, Memory, NEWEST_OLDER, OLDER, SLOTS,
};

// Lengths and slots move down by one: each program is the one before it, and the last stays. Moving up goes in the opposite direction, with other
// starts and ends: one function of both would be no plainer.
fn move_down(memory: &mut Memory)
    ensures { memory.new ≡ moved_down memory.old }
{
    memory.copy_within(LENGTHS + 1..LENGTHS + SLOTS, LENGTHS);
    memory.copy_within(NEWEST_OLDER..BUILD, CURRENT);
}

// Lengths and slots move up by one: the ninth falls out.
fn move_up(memory: &mut Memory)
    ensures { memory.new ≡ moved_up memory.old }
{
    memory.copy_within(LENGTHS..LENGTHS + SLOTS - 1, LENGTHS + 1);
    memory.copy_within(CURRENT..LAST_SLOT, NEWEST_OLDER);
}

// The first `len` bytes of the build area are the current program.
fn place(memory: &mut Memory, len: u64)
    ensures { memory.new ≡ placed memory.old len }
{
    memory[LENGTHS] = len.saturating_sub(8);
    memory.copy_within(BUILD..FRAMES, CURRENT);
}

// The program before the current one is the current one again.
pub fn undo(memory: &mut Memory) -> Told
    ensures { Does (undo_step memory.old) result memory.new }
{
    let older = memory[OLDER];
    if older == 0 {
        return Err(Refusal::NothingBefore);
    }
    memory[OLDER] = older - 1;
    move_down(memory);
    Ok(None)
}

// The first `len` bytes of the build area are the current program, and the one before can be gone back to.
pub fn commit(memory: &mut Memory, len: u64)
    ensures { memory.new ≡ committed memory.old len }
{
    memory[OLDER] = MAX_OLDER.min(memory[OLDER].saturating_add(1));
    move_up(memory);
    place(memory, len);
}
