// The state of a voice, by value, and when it is well formed (kira's StaticSound).
#![tactic(auto)]

ghost use Rattle.std.specs.Prelude.{◌≡◌};
ghost use Rattle.numbers.specs.Lists.{all};
ghost use Rattle.transport.specs.WellFormed.{well_formed_transport};
ghost use Rattle.resampler.specs.Windows.{zero_frame, numbered, windowed};
ghost use Rattle.sound_state.specs.Voices.{length_of_slice, start_of_slice, backwards, slice_of};
ghost use Rattle.sound_state.specs.WellFormed.{well_formed_setup, well_formed_for};

use resampler::{RecentFrame, Resampler};
use sound_update::{Moving, Slice};
use transport::Transport;

// What creation fixes for good.
#[derive(Clone, Copy, Debug, PartialEq, Eq)]
pub struct Setup {
    pub sample_rate: u32,
    pub num_frames: usize,
    pub slice: Option<(usize, usize)>,
    pub reverse: bool,
}

#[derive(Clone, Copy, Debug)]
pub struct StaticSound {
    pub setup: Setup,
    pub playback_rate: f64,
    pub started: bool,
    pub fractional_position: f64,
    pub moving: Moving,
}

impl Setup {
    // N: the number of frames in the slice, or of all frames.
    pub fn num_frames(self) -> usize
        ensures { result ≡ length_of_slice self }
    {
        match self.slice {
            None => self.num_frames,
            Some((start, end)) => end.saturating_sub(start),
        }
    }

    // The index of the slice's first frame in the sound.
    pub fn start(self) -> usize
        ensures { result ≡ start_of_slice self }
    {
        self.slice.map_or(0, |(start, _)| start)
    }

    fn is_well_formed_setup(self) -> bool
        ensures { result ≡ well_formed_setup self }
    {
        ((self.sample_rate > 0) & (self.sample_rate <= 768000))
            & ((self.num_frames > 0) & (self.num_frames <= 16777216))
            & playback_position::is_within(self.slice, self.num_frames)
    }
}

fn is_playing_backwards(playback_rate: f64, reverse: bool) -> bool
    ensures { result ≡ backwards playback_rate reverse }
{
    numbers::is_negative(playback_rate) != reverse
}

fn is_well_formed_transport(transport: Transport, num_frames: usize) -> bool
    ensures { result ≡ well_formed_transport num_frames transport }
{
    playback_position::is_within(transport.loop_region, num_frames)
        & (!transport.playing | (transport.position < num_frames))
        & (transport.position <= 4294967296)
}

fn is_zero_frame(entry: RecentFrame) -> bool
    ensures { result ≡ zero_frame entry }
{
    numbers::is_positive_zero(entry.frame.left) & numbers::is_positive_zero(entry.frame.right)
}

fn is_numbered(entry: RecentFrame) -> bool
    ensures { result ≡ numbered entry }
{
    entry.frame_index <= 4294967296
}

// This test and the next are a line each: one function with the test as a closure would be no shorter.
fn are_silent(entries: &[RecentFrame]) -> bool
    ensures { result ≡ all zero_frame entries.now }
{
    entries.iter().all(|entry| is_zero_frame(*entry))
}

fn are_numbered(entries: &[RecentFrame]) -> bool
    ensures { result ≡ all numbered entries.now }
{
    entries.iter().all(|entry| is_numbered(*entry))
}

// The entries from the count on are silent.
fn is_windowed(resampler: Resampler) -> bool
    ensures { result ≡ windowed resampler }
{
    let count = resampler.time_until_empty;
    count <= 4 && are_silent(&resampler.frames[count..]) && are_numbered(&resampler.frames)
}

impl StaticSound {
    pub fn slice(self) -> Slice
        ensures { result ≡ slice_of self }
    {
        Slice {
            start: self.setup.start(),
            num_frames: self.setup.num_frames(),
            backwards: is_playing_backwards(self.playback_rate, self.setup.reverse),
        }
    }

    // Whether the voice is well formed and the sound, of len samples, is as long as the voice records. A test and no
    // invariant of the type: a state that C passes may be anything, and the sound is not part of it.
    pub fn is_well_formed(self, len: usize) -> bool
        ensures { result ≡ well_formed_for len self }
    {
        self.setup.is_well_formed_setup()
            && numbers::is_finite(self.playback_rate)
            && is_well_formed_transport(self.moving.transport, self.setup.num_frames())
            && numbers::is_proper(self.fractional_position)
            && is_windowed(self.moving.resampler)
            && len == 2 * self.setup.num_frames
    }
}
