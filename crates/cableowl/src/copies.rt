// The C entries of copies of the loop table: crate loop_copies over numbers. Hall A is 0, B is 1. C has a function and
// a result of its own for a table (module loops) and for a copy, so each entry is written for both.
ghost use Rattle.std.specs.Prelude.{◌≡◌};
ghost use Rattle.loop_copies.specs.Copies.{empty_copy, copy_changed_of};
ghost use Rattle.cableowl.specs.Loops.{copy_changed_c, copy_written_c, copy_cleared_c, merged_c};

use crate::loops::hall_of;
use crate::value_or;
use loop_copies::LoopCopy;
use refusals::Refusal;

// After a write, a clear or a merge: the copy, the given one if it was refused.
#[repr(C)]
#[derive(Clone, Copy, Debug, PartialEq, Eq, Hash)]
pub struct CopyChanged {
    pub copy: LoopCopy,
    pub refusal: u32,
}

fn changed(given: LoopCopy, answer: Result<LoopCopy, Refusal>) -> CopyChanged
    ensures { result ≡ copy_changed_c (copy_changed_of given answer) }
{
    let (copy, refusal) = value_or(given, answer);
    CopyChanged { copy, refusal }
}

#[unsafe(no_mangle)]
pub extern "C" fn cableowl_loop_copy(num_frames: u64) -> LoopCopy
    ensures { result ≡ empty_copy num_frames }
{
    LoopCopy::new(num_frames)
}

#[unsafe(no_mangle)]
pub extern "C" fn cableowl_write_copy(
    copy: LoopCopy,
    hall: u32,
    slot: u64,
    start: u64,
    end: u64,
) -> CopyChanged
    ensures { result ≡ copy_written_c copy hall slot start end }
{
    let written = hall_of(hall).and_then(|hall| copy.write(hall, slot as usize, start, end));
    changed(copy, written)
}

#[unsafe(no_mangle)]
pub extern "C" fn cableowl_clear_copy(copy: LoopCopy, hall: u32, slot: u64) -> CopyChanged
    ensures { result ≡ copy_cleared_c copy hall slot }
{
    let cleared = hall_of(hall).and_then(|hall| copy.clear(hall, slot as usize));
    changed(copy, cleared)
}

#[unsafe(no_mangle)]
pub extern "C" fn cableowl_merge_copies(ours: LoopCopy, theirs: LoopCopy) -> CopyChanged
    ensures { result ≡ merged_c ours theirs }
{
    changed(ours, ours.merge(theirs))
}
