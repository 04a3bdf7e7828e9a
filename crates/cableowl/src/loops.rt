// The C entries of the loop table: crates loop_table and take_loop over numbers. Hall A is 0, B is 1.
ghost use Rattle.std.specs.Prelude.{◌≡◌, ◌≤◌, ◌<◌, MatchResult};
ghost use Rattle.refusals.specs.declared.Refusal.TheVariants.{State};
ghost use Rattle.loop_table.specs.Tables.{empty_table, changed_of};
ghost use Rattle.cableowl.specs.Loops.{hall_of, changed_c, written_c, cleared_c, read_c, taken_c};

use crate::{CableowlCommanded, command_answer, value_or};
use c_state::CableowlState;
use loop_table::{Hall, LoopSlot, LoopTable};
use refusals::Refusal;
use sound_state::StaticSound;

// After a write or a clear: the table, the given one if it was refused.
#[repr(C)]
#[derive(Clone, Copy, Debug, PartialEq, Eq, Hash)]
pub struct LoopChanged {
    pub table: LoopTable,
    pub refusal: u32,
}

// After a read: the slot, an empty one if it was refused.
#[repr(C)]
#[derive(Clone, Copy, Debug, PartialEq, Eq, Hash)]
pub struct LoopFound {
    pub slot: LoopSlot,
    pub refusal: u32,
}

// A function and no `TryFrom`: the numbers are C's, and loop_table does not know them.
pub(crate) fn hall_of(n: u32) -> Result<Hall, Refusal>
    ensures { MatchResult result (λ hall. (hall ≡ hall_of n) × (n ≤ 1)) (λ e. (e ≡ State) × (1 < n)) }
{
    match n {
        0 => Ok(Hall::A),
        1 => Ok(Hall::B),
        _ => Err(Refusal::State),
    }
}

// Module copies has the same for a copy. C knows the two results by names of their own, so a trait of both would only
// add to the two lines.
fn changed(given: LoopTable, answer: Result<LoopTable, Refusal>) -> LoopChanged
    ensures { result ≡ changed_c (changed_of given answer) }
{
    let (table, refusal) = value_or(given, answer);
    LoopChanged { table, refusal }
}

#[unsafe(no_mangle)]
pub extern "C" fn cableowl_loop_table(num_frames: u64) -> LoopTable
    ensures { result ≡ empty_table num_frames }
{
    LoopTable::new(num_frames)
}

#[unsafe(no_mangle)]
pub extern "C" fn cableowl_write_loop(
    table: LoopTable,
    hall: u32,
    slot: u64,
    start: u64,
    end: u64,
) -> LoopChanged
    ensures { result ≡ written_c table hall slot start end }
{
    let written = hall_of(hall).and_then(|hall| table.write(hall, slot as usize, start, end));
    changed(table, written)
}

#[unsafe(no_mangle)]
pub extern "C" fn cableowl_clear_loop(table: LoopTable, hall: u32, slot: u64) -> LoopChanged
    ensures { result ≡ cleared_c table hall slot }
{
    let cleared = hall_of(hall).and_then(|hall| table.clear(hall, slot as usize));
    changed(table, cleared)
}

#[unsafe(no_mangle)]
pub extern "C" fn cableowl_read_loop(table: LoopTable, slot: u64) -> LoopFound
    ensures { result ≡ read_c table slot }
{
    let (slot, refusal) = value_or(LoopSlot { start: 0, end: 0 }, table.read(slot as usize));
    LoopFound { slot, refusal }
}

#[unsafe(no_mangle)]
pub extern "C" fn cableowl_take_loop(
    table: LoopTable,
    slot: u64,
    state: CableowlState,
    sound: &[f32],
) -> CableowlCommanded
    ensures { result ≡ taken_c sound.now table slot state }
{
    let voice = StaticSound::from(state);
    command_answer(take_loop::take(table, slot as usize, voice, sound), state)
}
