// The loop table. Hall A is 0, B is 1.
ghost use Rattle.std.specs.Prelude.{◌≡◌};
ghost use Rattle.loop_table.specs.Tables.{empty_table};
ghost use Rattle.cableowl.specs.Loops.{written_c, cleared_c, read_c, taken_c};

use c_state::CableowlState;
use cableowl::{CableowlCommanded, LoopChanged, LoopFound};
use loop_table::LoopTable;

#[unsafe(no_mangle)]
pub extern "C" fn cableowl_loop_table(num_frames: u64) -> LoopTable
    ensures { result ≡ empty_table num_frames }
{
    cableowl::cableowl_loop_table(num_frames)
}

#[unsafe(no_mangle)]
pub extern "C" fn cableowl_write_loop(
    table: LoopTable,
    hall: u32,
    slot: u64,
    start: u64,
    end: u64,
) -> LoopChanged
    ensures { result ≡ written_c table hall slot start end }
{
    cableowl::cableowl_write_loop(table, hall, slot, start, end)
}

#[unsafe(no_mangle)]
pub extern "C" fn cableowl_clear_loop(table: LoopTable, hall: u32, slot: u64) -> LoopChanged
    ensures { result ≡ cleared_c table hall slot }
{
    cableowl::cableowl_clear_loop(table, hall, slot)
}

#[unsafe(no_mangle)]
pub extern "C" fn cableowl_read_loop(table: LoopTable, slot: u64) -> LoopFound
    ensures { result ≡ read_c table slot }
{
    cableowl::cableowl_read_loop(table, slot)
}

#[unsafe(no_mangle)]
pub extern "C" fn cableowl_take_loop(
    table: LoopTable,
    slot: u64,
    state: CableowlState,
    sound: &[f32],
) -> CableowlCommanded
    ensures { result ≡ taken_c sound.now table slot state }
{
    cableowl::cableowl_take_loop(table, slot, state, sound)
}
