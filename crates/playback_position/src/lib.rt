// Positions in a sound, in seconds or frames, as frame indices; and regions between two positions.
#![tactic(auto)]

ghost use Rattle.std.specs.Prelude.{◌≡◌};
ghost use Rattle.playback_position.specs.Positions.{
  within,
  finite_position,
  finite_end,
  position_in_frames,
  end_in_frames,
  region_in_frames,
  well_formed_region,
};

use numbers::{is_finite, round_half_away};

// A point in time in a piece of audio.
#[derive(Clone, Copy, Debug)]
pub enum PlaybackPosition {
    Seconds(f64),
    Samples(usize),
}

// Where a region ends: kira's type under kira's names, so not an Option.
#[derive(Clone, Copy, Debug)]
pub enum EndPosition {
    EndOfAudio,
    Custom(PlaybackPosition),
}

// A part of a piece of audio. The end is exclusive.
#[derive(Clone, Copy, Debug)]
pub struct Region {
    pub start: PlaybackPosition,
    pub end: EndPosition,
}

impl PlaybackPosition {
    pub fn into_samples(self, sample_rate: u32) -> usize
        ensures { result ≡ position_in_frames sample_rate self }
    {
        match self {
            PlaybackPosition::Seconds(seconds) => round_half_away(seconds * sample_rate as f64),
            PlaybackPosition::Samples(samples) => samples,
        }
    }

    pub fn is_finite_position(self) -> bool
        ensures { result ≡ finite_position self }
    {
        match self {
            PlaybackPosition::Seconds(seconds) => is_finite(seconds),
            PlaybackPosition::Samples(_) => true,
        }
    }
}

impl EndPosition {
    pub fn into_samples(self, sample_rate: u32, num_frames: usize) -> usize
        ensures { result ≡ end_in_frames sample_rate num_frames self }
    {
        match self {
            EndPosition::EndOfAudio => num_frames,
            EndPosition::Custom(position) => position.into_samples(sample_rate),
        }
    }

    pub fn is_finite_end(self) -> bool
        ensures { result ≡ finite_end self }
    {
        match self {
            EndPosition::EndOfAudio => true,
            EndPosition::Custom(position) => position.is_finite_position(),
        }
    }
}

// Whether a range of frames, start and exclusive end, is inside this many frames and not empty.
pub fn is_within(range: Option<(usize, usize)>, num_frames: usize) -> bool
    ensures { result ≡ within num_frames range }
{
    range.is_none_or(|(start, end)| start < end && end <= num_frames)
}

impl Region {
    // Sample rate and number of frames are two parameters: before a creation no struct has both.
    pub fn into_frames(self, sample_rate: u32, num_frames: usize) -> (usize, usize)
        ensures { result ≡ region_in_frames sample_rate num_frames self }
    {
        (
            self.start.into_samples(sample_rate),
            self.end.into_samples(sample_rate, num_frames),
        )
    }

    // Whether this region is a valid slice of the sound, or a valid loop in the slice.
    pub fn is_well_formed(self, sample_rate: u32, num_frames: usize) -> bool
        ensures { result ≡ well_formed_region sample_rate num_frames self }
    {
        self.start.is_finite_position()
            && self.end.is_finite_end()
            && is_within(Some(self.into_frames(sample_rate, num_frames)), num_frames)
    }
}
