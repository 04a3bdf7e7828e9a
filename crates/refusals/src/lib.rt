// The refusals, in the order of the C header, which has the same names and numbers and a sentence for each.
#![tactic(auto)]

ghost use Rattle.std.specs.Prelude.{◌≡◌};
ghost use Rattle.refusals.specs.Numbers.{number};

#[derive(Clone, Copy, Debug, PartialEq, Eq, Hash)]
pub enum Refusal {
    // The state, or the table of loops, is not well formed.
    State,
    SampleRate,
    FrameCount,
    Slice,
    StartPosition,
    LoopRegion,
    PlaybackRate,
    Seek,
    // A block's frame count, its lanes' lengths, or its output's.
    Block,
    TimeStep,
    // A number of a lane is not finite, or has a minus sign where none may be.
    Lane,
    // A frame advances by more than 256.
    Advance,
    Level,
    Ramp,
    // The bytes do not begin with a record's two marks.
    Mark,
    Kind,
    Record,
    // The bytes end inside the record.
    Truncated,
    // The buffer is too short.
    Room,
    LoopSlot,
    OtherHall,
    EmptySlot,
    Version,
    SavedField,
    // The output of a salvage is shorter than the trace.
    Output,
    OtherSound,
    OtherFrames,
    TwoHalves,
}

// Its number in the table, from 1 on.
impl From<Refusal> for u32 {
    ghost from_gives = { λ refusal n. n ≡ number refusal };

    fn from(refusal: Refusal) -> u32 {
        match refusal {
            Refusal::State => 1,
            Refusal::SampleRate => 2,
            Refusal::FrameCount => 3,
            Refusal::Slice => 4,
            Refusal::StartPosition => 5,
            Refusal::LoopRegion => 6,
            Refusal::PlaybackRate => 7,
            Refusal::Seek => 8,
            Refusal::Block => 9,
            Refusal::TimeStep => 10,
            Refusal::Lane => 11,
            Refusal::Advance => 12,
            Refusal::Level => 13,
            Refusal::Ramp => 14,
            Refusal::Mark => 15,
            Refusal::Kind => 16,
            Refusal::Record => 17,
            Refusal::Truncated => 18,
            Refusal::Room => 19,
            Refusal::LoopSlot => 20,
            Refusal::OtherHall => 21,
            Refusal::EmptySlot => 22,
            Refusal::Version => 23,
            Refusal::SavedField => 24,
            Refusal::Output => 25,
            Refusal::OtherSound => 26,
            Refusal::OtherFrames => 27,
            Refusal::TwoHalves => 28,
        }
    }
}

impl From<Refusal> for u64 {
    ghost from_gives = { λ refusal n. n ≡ number refusal };

    fn from(refusal: Refusal) -> u64 {
        u32::from(refusal) as u64
    }
}
