// A copy of the loop table for one of two boxes that share no memory. It counts each hall's writes and clears; a
// merge of two copies keeps each hall's newer half. Refusals 1, 27 and 28.
#![tactic(auto)]

ghost use Rattle.std.specs.Prelude.{◌≡◌, take, drop, ◌++◌, length};
ghost use Rattle.refusals.specs.Numbers.{number_of};
ghost use Rattle.loop_table.specs.Tables.{half};
ghost use Rattle.loop_copies.specs.Copies.{
  empty_copy,
  changes_of,
  counted_by,
  copy_changed_of,
  copy_written,
  copy_cleared,
  agrees,
  refused_merge,
  newer,
  merged,
  merged_copy,
};

use loop_table::{Hall, LoopSlot, LoopTable};
use refusals::Refusal;

// The table, and how many writes and clears each hall has made.
#[repr(C)]
#[derive(Clone, Copy, Debug, PartialEq, Eq, Hash)]
pub struct LoopCopy {
    pub table: LoopTable,
    pub changes_a: u64,
    pub changes_b: u64,
}

// The eight slots that a hall writes.
fn half(table: &LoopTable, hall: Hall) -> &[LoopSlot]
    ensures slots { result.now ≡ half hall table.now }
    ensures eight { length result.now ≡ 8 }
{
    match hall {
        Hall::A => &table.slots[..8],
        Hall::B => &table.slots[8..],
    }
}

// The first eight slots of `a`, then the last eight of `b`.
fn halves(a: [LoopSlot; 16], b: [LoopSlot; 16]) -> [LoopSlot; 16]
    ensures { result ≡ take 8 a ++ drop 8 b }
{
    let mut slots = b;
    slots[..8].copy_from_slice(&a[..8]);
    slots
}

impl LoopCopy {
    pub fn new(num_frames: u64) -> Self
        ensures { result ≡ empty_copy num_frames }
    {
        LoopCopy {
            table: LoopTable::new(num_frames),
            changes_a: 0,
            changes_b: 0,
        }
    }

    fn changes(self, hall: Hall) -> u64
        ensures { result ≡ changes_of hall self }
    {
        match hall {
            Hall::A => self.changes_a,
            Hall::B => self.changes_b,
        }
    }

    // The copy after a hall's accepted write or clear.
    fn count(mut self, hall: Hall, table: LoopTable) -> Self
        ensures { result ≡ counted_by hall self table }
    {
        self.table = table;
        match hall {
            Hall::A => self.changes_a = self.changes_a.saturating_add(1),
            Hall::B => self.changes_b = self.changes_b.saturating_add(1),
        }
        self
    }

    // Start and end are two numbers, as for a table.
    pub fn write(self, hall: Hall, slot: usize, start: u64, end: u64) -> Result<LoopCopy, Refusal>
        ensures { copy_changed_of self result ≡ copy_written self hall slot start end }
    {
        let table = self.table.write(hall, slot, start, end)?;
        Ok(self.count(hall, table))
    }

    pub fn clear(self, hall: Hall, slot: usize) -> Result<LoopCopy, Refusal>
        ensures { copy_changed_of self result ≡ copy_cleared self hall slot }
    {
        let table = self.table.clear(hall, slot)?;
        Ok(self.count(hall, table))
    }

    // Whether a hall's two halves are equal if they have the same number.
    fn agrees(&self, theirs: &LoopCopy, hall: Hall) -> bool
        ensures { result ≡ agrees hall self.now theirs.now }
    {
        if self.changes(hall) != theirs.changes(hall) {
            return true;
        }
        half(&self.table, hall) == half(&theirs.table, hall)
    }

    fn check_merge(self, theirs: LoopCopy) -> Result<(), Refusal>
        ensures { number_of result ≡ refused_merge self theirs }
    {
        if !(self.table.is_well_formed() && theirs.table.is_well_formed()) {
            return Err(Refusal::State);
        }
        if self.table.num_frames != theirs.table.num_frames {
            return Err(Refusal::OtherFrames);
        }
        if !(self.agrees(&theirs, Hall::A) && self.agrees(&theirs, Hall::B)) {
            return Err(Refusal::TwoHalves);
        }
        Ok(())
    }

    // The copy whose half is newer; ours if both have the same number.
    fn newer(self, theirs: LoopCopy, hall: Hall) -> LoopCopy
        ensures { result ≡ newer hall self theirs }
    {
        if self.changes(hall) < theirs.changes(hall) {
            theirs
        } else {
            self
        }
    }

    // Each hall's newer half.
    pub fn merge(self, theirs: LoopCopy) -> Result<LoopCopy, Refusal>
        ensures { copy_changed_of self result ≡ merged_copy self theirs }
    {
        self.check_merge(theirs)?;
        let a = self.newer(theirs, Hall::A);
        let b = self.newer(theirs, Hall::B);
        let table = LoopTable {
            num_frames: self.table.num_frames,
            slots: halves(a.table.slots, b.table.slots),
        };
        Ok(LoopCopy {
            table,
            changes_a: a.changes_a,
            changes_b: b.changes_b,
        })
    }
}
