// Copies of the loop table. Hall A is 0, B is 1.
ghost use Rattle.std.specs.Prelude.{◌≡◌};
ghost use Rattle.loop_copies.specs.Copies.{empty_copy};
ghost use Rattle.cableowl.specs.Loops.{copy_written_c, copy_cleared_c, merged_c};

use cableowl::CopyChanged;
use loop_copies::LoopCopy;

#[unsafe(no_mangle)]
pub extern "C" fn cableowl_loop_copy(num_frames: u64) -> LoopCopy
    ensures { result ≡ empty_copy num_frames }
{
    cableowl::cableowl_loop_copy(num_frames)
}

#[unsafe(no_mangle)]
pub extern "C" fn cableowl_write_copy(
    copy: LoopCopy,
    hall: u32,
    slot: u64,
    start: u64,
    end: u64,
) -> CopyChanged
    ensures { result ≡ copy_written_c copy hall slot start end }
{
    cableowl::cableowl_write_copy(copy, hall, slot, start, end)
}

#[unsafe(no_mangle)]
pub extern "C" fn cableowl_clear_copy(copy: LoopCopy, hall: u32, slot: u64) -> CopyChanged
    ensures { result ≡ copy_cleared_c copy hall slot }
{
    cableowl::cableowl_clear_copy(copy, hall, slot)
}

#[unsafe(no_mangle)]
pub extern "C" fn cableowl_merge_copies(ours: LoopCopy, theirs: LoopCopy) -> CopyChanged
    ensures { result ≡ merged_c ours theirs }
{
    cableowl::cableowl_merge_copies(ours, theirs)
}
