// The moving part of a voice, and one update: push the frame at the position, then step the transport (kira's
// StaticSound::update_position).
#![tactic(auto)]

ghost use Rattle.std.specs.Prelude.{◌≡◌, true, ◌+◌, ◌*◌, ◌<◌, length};
ghost use Rattle.frame.specs.Frames.{frame_of};
ghost use Rattle.transport.specs.WellFormed.{WellFormedTransport};
ghost use Rattle.sound_update.specs.Updates.{
  sounding,
  pushed,
  stepped,
  counted,
  updated,
  updates,
  moving_of,
  Updatable,
};

mod window;

use frame::Frame;
use playback_state_manager::PlaybackState;
use resampler::Resampler;
use transport::Transport;
use window::{frames_of, numbers_of, window_of};

// The wraps so far: forward steps that wrapped, and backward ones.
#[derive(Clone, Copy, Debug, PartialEq, Eq)]
pub struct Wraps {
    pub forward: u32,
    pub backward: u32,
}

// What an update changes.
#[derive(Clone, Copy, Debug)]
pub struct Moving {
    pub state: PlaybackState,
    pub transport: Transport,
    pub resampler: Resampler,
    pub wraps: Wraps,
}

// What an update reads and does not change.
#[derive(Clone, Copy, Debug, PartialEq, Eq)]
pub struct Slice {
    pub start: usize,
    pub num_frames: usize,
    pub backwards: bool,
}

// Frame i of interleaved samples.
pub fn frame_in(sound: &[f32], i: usize) -> Frame
    requires { 2 * i + 1 < length sound.now }
    ensures { result ≡ frame_of sound.now i }
{
    Frame {
        left: sound[2 * i],
        right: sound[2 * i + 1],
    }
}

fn frame_to_push(sound: &[f32], playing: bool, i: usize) -> Option<Frame>
    requires { playing ≡ true → 2 * i + 1 < length sound.now }
    ensures { result ≡ sounding sound.now playing i }
{
    if playing {
        Some(frame_in(sound, i))
    } else {
        None
    }
}

// The direction is asked here and in `count`, as in kira: a trait of the two directions would have two impls in place
// of these two tests.
fn step(transport: Transport, slice: Slice) -> Transport
    requires { WellFormedTransport slice.num_frames transport }
    ensures { result ≡ stepped slice transport }
{
    if slice.backwards {
        transport.decrement_position()
    } else {
        transport.increment_position(slice.num_frames)
    }
}

// The counts after the next step. A count stays at its limit.
fn count(transport: Transport, slice: Slice, wraps: Wraps) -> Wraps
    requires { WellFormedTransport slice.num_frames transport }
    ensures { result ≡ counted slice transport wraps }
{
    if !transport.wraps(slice.backwards) {
        wraps
    } else if slice.backwards {
        Wraps {
            backward: wraps.backward.saturating_add(1),
            ..wraps
        }
    } else {
        Wraps {
            forward: wraps.forward.saturating_add(1),
            ..wraps
        }
    }
}

// What an update asks, `Updatable`, is a clause and no invariant of a type: it is a fact of the moving part together
// with its slice and the sound's length. A state that C passes may be anything, and `StaticSound::is_well_formed`
// checks it.
// The slice and the sound are two parameters, since C passes the sound and the slice is of the state: a struct of both
// would be built for a call and taken apart in it.
impl Moving {
    // Pushes the frame at the position, or no frame if the transport is not playing.
    pub fn push_frame_to_resampler(self, slice: Slice, sound: &[f32]) -> Resampler
        requires { Updatable sound.now slice self }
        ensures { result ≡ pushed sound.now slice self }
    {
        let at = self.transport.position;
        let frame = frame_to_push(sound, self.transport.playing, slice.start + at);
        self.resampler.push_frame(frame, at)
    }

    // Pushes the frame at the position and steps. If it is not playing and the window is empty, the voice becomes
    // Stopped.
    pub fn update_position(self, slice: Slice, sound: &[f32]) -> Moving
        requires { Updatable sound.now slice self }
        ensures { result ≡ updated sound.now slice self }
    {
        let resampler = self.push_frame_to_resampler(slice, sound);
        let wraps = count(self.transport, slice, self.wraps);
        let transport = step(self.transport, slice);
        let state = if !transport.playing & resampler.empty() {
            PlaybackState::Stopped
        } else {
            self.state
        };
        Moving {
            state,
            transport,
            resampler,
            wraps,
        }
    }

    // As many updates as steps. The loop carries the moving part in pieces, so that neither padding nor the loop
    // region is copied, and no frame index is in the same vector as the samples.
    pub fn update_positions(self, slice: Slice, sound: &[f32], steps: usize) -> Moving
        requires { Updatable sound.now slice self }
        ensures { result ≡ updates steps sound.now slice self }
    {
        let first = self.transport;
        let loop_region = first.loop_region;
        let window = self.resampler;
        let mut state = self.state;
        let mut position = first.position;
        let mut playing = first.playing;
        let mut wraps = self.wraps;
        let mut frames = frames_of(window);
        let mut numbers = numbers_of(window);
        for _ in 0..steps {
            let window = window_of(frames, numbers);
            let moving = moving_of(loop_region, state, position, playing, wraps, window);
            let next = moving.update_position(slice, sound);
            let after = next.transport;
            let pushed = next.resampler;
            state = next.state;
            position = after.position;
            playing = after.playing;
            wraps = next.wraps;
            frames = frames_of(pushed);
            numbers = numbers_of(pushed);
        }
        let window = window_of(frames, numbers);
        moving_of(loop_region, state, position, playing, wraps, window)
    }
}

// The moving part from its pieces: loop, state, position, counts and window.
fn moving_of(
    loop_region: Option<(usize, usize)>,
    state: PlaybackState,
    position: usize,
    playing: bool,
    wraps: Wraps,
    resampler: Resampler,
) -> Moving
    ensures { result ≡ moving_of loop_region state position playing wraps resampler }
{
    let transport = Transport {
        position,
        loop_region,
        playing,
    };
    Moving {
        state,
        transport,
        resampler,
        wraps,
    }
}
