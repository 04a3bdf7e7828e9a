// A table of sixteen loops over one sound, written by two halls: A's slots are 0 to 7, B's 8 to 15, and both read
// all.
#![tactic(auto)]

ghost use Rattle.std.specs.Prelude.{◌≡◌, ◌<◌};
ghost use Rattle.refusals.specs.Numbers.{number_of};
ghost use Rattle.loop_table.specs.Tables.{
  looping,
  is_empty,
  well_formed_slot,
  well_formed_table,
  owns,
  empty_table,
  stored,
  changed_of,
  refused_table,
  refused_slot,
  written,
  cleared,
  found_of,
  found,
};

use refusals::Refusal;

#[derive(Clone, Copy, Debug, PartialEq, Eq, Hash)]
pub enum Hall {
    A,
    B,
}

// A loop in frames, end exclusive. The C interface and saved loops fix what an empty slot is: start 0 and end 0, which
// no loop has.
#[repr(C)]
#[derive(Clone, Copy, Debug, PartialEq, Eq, Hash)]
pub struct LoopSlot {
    pub start: u64,
    pub end: u64,
}

// The frame count of the sound, inside which every loop must lie, and the slots.
#[repr(C)]
#[derive(Clone, Copy, Debug, PartialEq, Eq, Hash)]
pub struct LoopTable {
    pub num_frames: u64,
    pub slots: [LoopSlot; 16],
}

impl LoopSlot {
    const EMPTY: LoopSlot = LoopSlot { start: 0, end: 0 };

    fn is_empty(self) -> bool
        ensures { result ≡ is_empty self }
    {
        self == LoopSlot::EMPTY
    }

    // Whether refusal 6 does not apply.
    fn is_loop(self, num_frames: u64) -> bool
        ensures { result ≡ looping num_frames self.start self.end }
    {
        self.start < self.end && self.end <= num_frames
    }

    // Whether it is empty, or a loop inside this many frames.
    pub fn is_well_formed(self, num_frames: u64) -> bool
        ensures { result ≡ well_formed_slot num_frames self }
    {
        self.is_empty() || self.is_loop(num_frames)
    }
}

impl Hall {
    fn owns(self, slot: usize) -> bool
        ensures { result ≡ owns self slot }
    {
        match self {
            Hall::A => slot < 8,
            Hall::B => slot >= 8,
        }
    }

    // Refusals 20 and 21.
    fn check(self, slot: usize) -> Result<(), Refusal>
        ensures { number_of result ≡ refused_slot self slot }
    {
        if slot > 15 {
            return Err(Refusal::LoopSlot);
        }
        if !self.owns(slot) {
            return Err(Refusal::OtherHall);
        }
        Ok(())
    }
}

impl LoopTable {
    pub fn new(num_frames: u64) -> Self
        ensures { result ≡ empty_table num_frames }
    {
        LoopTable {
            num_frames,
            slots: [LoopSlot::EMPTY; 16],
        }
    }

    // Whether refusal 1 does not apply.
    pub fn is_well_formed(self) -> bool
        ensures { result ≡ well_formed_table self }
    {
        self.slots
            .iter()
            .all(|slot| slot.is_well_formed(self.num_frames))
    }

    fn check(self) -> Result<(), Refusal>
        ensures { number_of result ≡ refused_table self }
    {
        if self.is_well_formed() {
            Ok(())
        } else {
            Err(Refusal::State)
        }
    }

    // The table with one slot replaced.
    fn stored(mut self, slot: usize, held: LoopSlot) -> Self
        requires { slot < 16 }
        ensures { result ≡ stored self slot held }
    {
        self.slots[slot] = held;
        self
    }

    // Start and end are two numbers, as C passes them and as the definition `written` has them.
    pub fn write(self, hall: Hall, slot: usize, start: u64, end: u64) -> Result<LoopTable, Refusal>
        ensures { changed_of self result ≡ written self hall slot start end }
    {
        self.check()?;
        let held = LoopSlot { start, end };
        if !held.is_loop(self.num_frames) {
            return Err(Refusal::LoopRegion);
        }
        hall.check(slot)?;
        Ok(self.stored(slot, held))
    }

    pub fn clear(self, hall: Hall, slot: usize) -> Result<LoopTable, Refusal>
        ensures { changed_of self result ≡ cleared self hall slot }
    {
        self.check()?;
        hall.check(slot)?;
        Ok(self.stored(slot, LoopSlot::EMPTY))
    }

    // By either hall.
    pub fn read(self, slot: usize) -> Result<LoopSlot, Refusal>
        ensures { found_of result ≡ found self slot }
    {
        self.check()?;
        if slot > 15 {
            return Err(Refusal::LoopSlot);
        }
        let held = self.slots[slot];
        if held.is_empty() {
            return Err(Refusal::EmptySlot);
        }
        Ok(held)
    }
}
