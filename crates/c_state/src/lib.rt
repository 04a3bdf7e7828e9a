// A voice as a C record, where states and flags are numbers. Any bytes are accepted: a record that represents no voice
// becomes the blank state, which every entry refuses.
#![tactic(auto)]

ghost use Rattle.std.specs.Prelude.{◌≡◌, ◌≤◌};
ghost use Rattle.c_state.specs.Records.{
  well_formed_range,
  well_formed_state,
  state_of,
  range_of,
  recent_of,
  decoded,
  given,
  start_of,
  ending_of,
  entry_of,
  encoded,
};

use frame::Frame;
use playback_state_manager::PlaybackState;
use resampler::{RecentFrame, Resampler};
use sound_state::{Setup, StaticSound};
use sound_update::{Moving, Wraps};
use transport::Transport;

// An entry of the window.
#[repr(C)]
#[derive(Clone, Copy)]
pub struct CableowlEntry {
    pub left: f32,
    pub right: f32,
    pub number: u64,
}

// A voice. The state is 0 to 6, each flag 0 or 1. If a slice or a loop is absent, its two numbers are 0.
#[repr(C)]
#[derive(Clone, Copy)]
pub struct CableowlState {
    pub sample_rate: u32,
    pub state: u32,
    pub reverse: u32,
    pub started: u32,
    pub playing: u32,
    pub has_slice: u32,
    pub has_loop: u32,
    pub count: u32,
    pub num_frames: u64,
    pub slice_start: u64,
    pub slice_end: u64,
    pub position: u64,
    pub loop_start: u64,
    pub loop_end: u64,
    pub playback_rate: f64,
    pub fraction: f64,
    pub window: [CableowlEntry; 4],
    pub forward_wraps: u32,
    pub backward_wraps: u32,
}

fn is_range(has: u32, start: u64, end: u64) -> bool
    ensures { result ≡ well_formed_range has start end }
{
    (has == 1) | ((has == 0) & (start == 0) & (end == 0))
}

fn is_well_formed(state: CableowlState) -> bool
    ensures { result ≡ well_formed_state state }
{
    (state.state <= 6)
        & (state.reverse <= 1)
        & (state.started <= 1)
        & (state.playing <= 1)
        & is_range(state.has_slice, state.slice_start, state.slice_end)
        & is_range(state.has_loop, state.loop_start, state.loop_end)
}

// A number above 6 is in no well formed record. A function of its own, since `TryFrom` refuses such a number.
fn state_of(n: u32) -> PlaybackState
    ensures { result ≡ state_of n }
{
    PlaybackState::try_from(n).unwrap_or(PlaybackState::Stopped)
}

fn range_of(has: u32, start: u64, end: u64) -> Option<(usize, usize)>
    ensures { result ≡ range_of has start end }
{
    match has {
        0 => None,
        _ => Some((start as usize, end as usize)),
    }
}

impl From<CableowlEntry> for RecentFrame {
    ghost from_gives = { λ entry recent. recent ≡ recent_of entry };

    fn from(entry: CableowlEntry) -> RecentFrame {
        RecentFrame {
            frame: Frame {
                left: entry.left,
                right: entry.right,
            },
            frame_index: entry.number as usize,
        }
    }
}

// A record that is not well formed becomes the blank state, which is not well formed.
impl From<CableowlState> for StaticSound {
    ghost from_gives = { λ state voice. voice ≡ decoded state };

    fn from(state: CableowlState) -> StaticSound {
        if !is_well_formed(state) {
            return sound_creation::blank();
        }
        let setup = Setup {
            sample_rate: state.sample_rate,
            num_frames: state.num_frames as usize,
            slice: range_of(state.has_slice, state.slice_start, state.slice_end),
            reverse: state.reverse != 0,
        };
        let moving = Moving {
            state: state_of(state.state),
            transport: Transport {
                position: state.position as usize,
                loop_region: range_of(state.has_loop, state.loop_start, state.loop_end),
                playing: state.playing != 0,
            },
            resampler: Resampler {
                frames: state.window.map(RecentFrame::from),
                time_until_empty: state.count as usize,
            },
            wraps: Wraps {
                forward: state.forward_wraps,
                backward: state.backward_wraps,
            },
        };
        StaticSound {
            setup,
            playback_rate: state.playback_rate,
            started: state.started != 0,
            fractional_position: state.fraction,
            moving,
        }
    }
}

// Whether there is a range, its start and its end.
fn parts_of(range: Option<(usize, usize)>) -> (u32, u64, u64)
    ensures { result ≡ (given range, start_of range, ending_of range) }
{
    match range {
        None => (0, 0, 0),
        Some((start, end)) => (1, start as u64, end as u64),
    }
}

impl From<RecentFrame> for CableowlEntry {
    ghost from_gives = { λ recent entry. entry ≡ entry_of recent };

    fn from(recent: RecentFrame) -> CableowlEntry {
        CableowlEntry {
            left: recent.frame.left,
            right: recent.frame.right,
            number: recent.frame_index as u64,
        }
    }
}

// A function and no `From`: the count of a voice that is not well formed may have more than 32 bits.
pub fn encode(voice: StaticSound) -> CableowlState
    requires { voice.moving.resampler.time_until_empty ≤ 4 }
    ensures { result ≡ encoded voice }
{
    let setup = voice.setup;
    let moving = voice.moving;
    let transport = moving.transport;
    let (has_slice, slice_start, slice_end) = parts_of(setup.slice);
    let (has_loop, loop_start, loop_end) = parts_of(transport.loop_region);
    CableowlState {
        sample_rate: setup.sample_rate,
        state: u32::from(moving.state),
        reverse: u32::from(setup.reverse),
        started: u32::from(voice.started),
        playing: u32::from(transport.playing),
        has_slice,
        has_loop,
        count: moving.resampler.time_until_empty as u32,
        num_frames: setup.num_frames as u64,
        slice_start,
        slice_end,
        position: transport.position as u64,
        loop_start,
        loop_end,
        playback_rate: voice.playback_rate,
        fraction: voice.fractional_position,
        window: moving.resampler.frames.map(CableowlEntry::from),
        forward_wraps: moving.wraps.forward,
        backward_wraps: moving.wraps.backward,
    }
}
