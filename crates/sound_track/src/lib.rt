// The track. During uninterrupted playback the window is contiguous: it equals four neighbouring frames of the track.
// So the fast path reads them in the sound and keeps only the position of the first.
#![tactic(auto)]

ghost use Rattle.std.specs.Prelude.{◌≡◌, Bool, true, false, ◌+◌, ◌*◌, ◌≤◌, ◌<◌, length};
ghost use Rattle.frame.specs.Frames.{frame_of};
ghost use Rattle.sound_track.specs.Tracks.{
  track_of,
  next,
  nexts,
  counts,
  wraps_of,
  raised_by,
  On,
  on_track,
  far,
  straight,
  roomy,
};
ghost use Rattle.sound_track.specs.Contiguous.{
  seen,
  passed,
  contiguous_of,
  InsideSound,
  same,
  same_entry,
  same_window,
  is_contiguous,
  Contiguous,
};

use frame::Frame;
use resampler::{RecentFrame, Resampler};
use sound_update::{Moving, Slice, Wraps};
use transport::Transport;

// The positions that uninterrupted playback passes: forward up to high and again from low, or backward down to low
// and again from high - 1. Without a loop it ends there. Its `count` positions begin at `start` in the sound. Every
// step reads low and high, with a loop or without one, so they are no Option.
#[derive(Clone, Copy)]
pub struct Track {
    pub start: usize,
    pub count: usize,
    pub low: usize,
    pub high: usize,
    pub looped: bool,
    pub backwards: bool,
}

pub fn track_of(loop_region: Option<(usize, usize)>, slice: Slice) -> Track
    ensures { result ≡ track_of loop_region slice }
{
    match loop_region {
        None => Track {
            start: slice.start,
            count: slice.num_frames,
            low: 0,
            high: slice.num_frames,
            looped: false,
            backwards: slice.backwards,
        },
        Some((start, end)) => Track {
            start: slice.start,
            count: slice.num_frames,
            low: start,
            high: end,
            looped: true,
            backwards: slice.backwards,
        },
    }
}

// ---- directions

// A direction along a track. Code that takes one is compiled for each. A track and a position are two parameters: the
// loops and the window keep bare positions of one track, so a struct of both would be made for each call and taken
// apart after it. That the track goes in this direction is a clause: tracks of both directions have one type.
pub trait Direction {
    ghost backwards: { Bool };

    // The next position.
    fn next(track: Track, at: usize) -> usize
        requires on { On track at }
        requires backwards_value { track.backwards ≡ backwards }
        ensures value { result ≡ next track at }
        ensures on_2 { On track result };

    // The position n steps on.
    fn after_steps(track: Track, at: usize, n: usize) -> usize
        requires on { On track at }
        requires n_bound { n < 1000 }
        requires backwards_value { track.backwards ≡ backwards }
        ensures value { result ≡ nexts n track at }
        ensures on_2 { On track result };

    // Whether n steps and the window's four frames come before the step that wraps.
    fn is_straight(track: Track, at: usize, n: usize) -> bool
        requires on { On track at }
        requires n_bound { n < 2000 }
        requires backwards_value { track.backwards ≡ backwards }
        ensures { result ≡ straight track n at };

    // The position n steps on, where none of them wraps.
    fn straight_on(track: Track, at: usize, n: usize) -> usize
        requires on { On track at }
        requires far_enough { n ≤ far track at }
        requires backwards_value { track.backwards ≡ backwards }
        ensures value { result ≡ nexts n track at }
        ensures on_2 { On track result };

    // Whether n steps and the window's four frames stay on the track.
    fn has_room(track: Track, at: usize, n: usize) -> bool
        requires on { On track at }
        requires n_bound { n < 2000 }
        requires backwards_value { track.backwards ≡ backwards }
        ensures { result ≡ roomy track n at }
    {
        track.looped | Self::is_straight(track, at, n)
    }
}

// Up to high and again from low.
pub struct Forward;

impl Direction for Forward {
    ghost backwards = { false };

    fn next(track: Track, at: usize) -> usize {
        let on = at + 1;
        if on == track.high { track.low } else { on }
    }

    fn after_steps(track: Track, at: usize, n: usize) -> usize {
        let on = at + n;
        if on < track.high {
            return on;
        }
        let over = on - track.high;
        let round = track.high - track.low;
        if over < round {
            return track.low + over;
        }
        track.low + over % round
    }

    fn is_straight(track: Track, at: usize, n: usize) -> bool {
        at + n < track.high.saturating_sub(4)
    }

    fn straight_on(_track: Track, at: usize, n: usize) -> usize {
        at + n
    }
}

// Down to low and again from high - 1.
pub struct Backward;

impl Direction for Backward {
    ghost backwards = { true };

    fn next(track: Track, at: usize) -> usize {
        if at == track.low {
            track.high - 1
        } else {
            at - 1
        }
    }

    fn after_steps(track: Track, at: usize, n: usize) -> usize {
        let down = track.low + n;
        if down <= at {
            return at - n;
        }
        let short = down - at - 1;
        let round = track.high - track.low;
        if short < round {
            return track.high - 1 - short;
        }
        track.high - 1 - short % round
    }

    fn is_straight(track: Track, at: usize, n: usize) -> bool {
        track.low + 4 + n <= at
    }

    fn straight_on(_track: Track, at: usize, n: usize) -> usize {
        at - n
    }
}

// ---- both directions: here the direction is a value of the track, and is tested a few times a block. That the sound
// has the track's frames, `InsideSound`, is a clause: it ties the track to a sound that C passes.

impl Track {
    fn step(self, at: usize) -> usize
        requires { On self at }
        ensures value { result ≡ next self at }
        ensures on { On self result }
    {
        if self.backwards {
            Backward::next(self, at)
        } else {
            Forward::next(self, at)
        }
    }

    fn is_on(self, at: usize) -> bool
        ensures { result ≡ on_track self at }
    {
        if self.backwards {
            (at < self.count) & (self.low <= at)
        } else {
            (at < self.count) & (at < self.high)
        }
    }

    fn has_room(self, at: usize) -> bool
        requires { On self at }
        ensures { result ≡ roomy self 0 at }
    {
        if self.backwards {
            Backward::has_room(self, at, 0)
        } else {
            Forward::has_room(self, at, 0)
        }
    }

    // How often n steps wrap.
    fn wraps_of(self, at: usize, n: usize) -> usize
        requires on { On self at }
        requires n_bound { n < 4294967296 }
        ensures { result ≡ wraps_of n self at }
    {
        let round = self.high - self.low;
        if self.backwards {
            if self.low + n <= at {
                return 0;
            }
            return 1 + (self.low + n - at - 1) / round;
        }
        if at + n < self.high {
            return 0;
        }
        1 + (at + n - self.high) / round
    }

    // The counts of wraps after n steps from a position.
    pub fn wraps_after(self, at: usize, n: usize, wraps: Wraps) -> Wraps
        requires on { On self at }
        requires n_bound { n < 4294967296 }
        ensures { result ≡ counts n self at wraps }
    {
        let more = self.wraps_of(at, n);
        if self.backwards {
            Wraps {
                backward: raise_by(wraps.backward, more),
                ..wraps
            }
        } else {
            Wraps {
                forward: raise_by(wraps.forward, more),
                ..wraps
            }
        }
    }

    // The frame at a position of the track.
    pub fn frame_at(self, sound: &[f32], at: usize) -> Frame
        requires inside_sound { InsideSound sound.now self }
        requires on { On self at }
        ensures { result ≡ frame_of sound.now (self.start + at) }
    {
        sound_update::frame_in(sound, self.start + at)
    }

    fn entry_at(self, sound: &[f32], at: usize) -> RecentFrame
        requires inside_sound { InsideSound sound.now self }
        requires on { On self at }
        ensures { result ≡ seen sound.now self.start at }
    {
        RecentFrame {
            frame: self.frame_at(sound, at),
            frame_index: at,
        }
    }

    // The moving part whose window is the contiguous window from a position on, with these counts of wraps.
    pub fn contiguous_at(self, moving: Moving, sound: &[f32], at: usize, wraps: Wraps) -> Moving
        requires inside_sound { InsideSound sound.now self }
        requires on { On self at }
        ensures { result ≡ contiguous_of sound.now self moving wraps at }
    {
        let b = self.step(at);
        let c = self.step(b);
        let d = self.step(c);
        let frames = [
            self.entry_at(sound, at),
            self.entry_at(sound, b),
            self.entry_at(sound, c),
            self.entry_at(sound, d),
        ];
        Moving {
            transport: Transport {
                position: self.step(d),
                playing: true,
                ..moving.transport
            },
            wraps,
            resampler: Resampler {
                frames,
                time_until_empty: 4,
            },
            ..moving
        }
    }

    // Whether the window is a contiguous window, and the next update pushes a frame.
    #[tactic(auto, unfolding(crate::specs::Contiguous::is_contiguous))]
    pub fn is_contiguous(self, moving: Moving, sound: &[f32]) -> bool
        requires inside_sound { InsideSound sound.now self }
        requires frames_len { length moving.resampler.frames ≡ 4 }
        ensures value { result ≡ is_contiguous sound.now self moving }
        ensures contiguous { result ≡ true → Contiguous sound.now self moving }
    {
        let transport = moving.transport;
        let at = moving.resampler.frames[0].frame_index;
        if !transport.playing {
            return false;
        }
        if !self.is_on(at) {
            return false;
        }
        if !self.has_room(at) {
            return false;
        }
        let there = self.contiguous_at(moving, sound, at, moving.wraps);
        (transport.position == there.transport.position)
            & is_same_window(moving.resampler, there.resampler)
    }
}

// A count plus this many; it stays at its limit.
fn raise_by(count: u32, n: usize) -> u32
    ensures { result ≡ raised_by n count }
{
    (count as usize).saturating_add(n).min(u32::MAX as usize) as u32
}

// ---- the test for a contiguous window. PartialEq would not do: 0 and -0 are equal to it, but differ here.

// Equal bit for bit. A NaN equals nothing, so its window takes the slow path.
fn is_same(a: f32, b: f32) -> bool
    ensures value { result ≡ same a b }
    ensures a_value { result ≡ true → a ≡ b }
{
    if a == b {
        return f32::to_bits(a) == f32::to_bits(b);
    }
    false
}

fn is_same_entry(a: RecentFrame, b: RecentFrame) -> bool
    ensures value { result ≡ same_entry a b }
    ensures a_value { result ≡ true → a ≡ b }
{
    (a.frame_index == b.frame_index)
        & is_same(a.frame.left, b.frame.left)
        & is_same(a.frame.right, b.frame.right)
}

fn is_same_window(a: Resampler, b: Resampler) -> bool
    requires frames_len { length a.frames ≡ 4 }
    requires frames_len_2 { length b.frames ≡ 4 }
    ensures value { result ≡ same_window a b }
    ensures a_value { result ≡ true → a ≡ b }
{
    (a.time_until_empty == b.time_until_empty)
        & is_same_entry(a.frames[0], b.frames[0])
        & is_same_entry(a.frames[1], b.frames[1])
        & is_same_entry(a.frames[2], b.frames[2])
        & is_same_entry(a.frames[3], b.frames[3])
}
