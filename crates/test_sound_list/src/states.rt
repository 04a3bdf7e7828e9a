// A whole state in the list: 30 numbers, in the order of the fields.
use crate::input;
use frame::Frame;
use playback_state_manager::PlaybackState;
use resampler::{RecentFrame, Resampler};
use sound_state::{Setup, StaticSound};
use sound_update::{Moving, Wraps};
use std::io::Read;
use transport::Transport;

// A range, or two zeros for none.
fn next_range(from: &mut impl Read) -> Option<(usize, usize)> {
    let there = input::yes(from);
    let start = input::index(from);
    let end = input::index(from);
    if there { Some((start, end)) } else { None }
}

fn is_range(from: &mut impl Read, range: Option<(usize, usize)>) -> bool {
    match range {
        None => input::is(from, 0) & input::is(from, 0) & input::is(from, 0),
        Some((start, end)) => {
            input::is(from, 1) & input::is(from, start as u64) & input::is(from, end as u64)
        }
    }
}

// The state with this number; Stopped for any other.
fn playback_state(number: u64) -> PlaybackState {
    PlaybackState::try_from(number.min(6) as u32).unwrap_or(PlaybackState::Stopped)
}

fn next_setup(from: &mut impl Read) -> Setup {
    Setup {
        sample_rate: input::half(from),
        num_frames: input::index(from),
        slice: next_range(from),
        reverse: input::yes(from),
    }
}

fn is_setup(from: &mut impl Read, setup: Setup) -> bool {
    input::is(from, setup.sample_rate as u64)
        & input::is(from, setup.num_frames as u64)
        & is_range(from, setup.slice)
        & input::is_yes(from, setup.reverse)
}

fn next_transport(from: &mut impl Read) -> Transport {
    Transport {
        position: input::index(from),
        loop_region: next_range(from),
        playing: input::yes(from),
    }
}

fn is_transport(from: &mut impl Read, transport: Transport) -> bool {
    input::is(from, transport.position as u64)
        & is_range(from, transport.loop_region)
        & input::is_yes(from, transport.playing)
}

fn next_entry(from: &mut impl Read) -> RecentFrame {
    let frame = Frame {
        left: input::single(from),
        right: input::single(from),
    };
    RecentFrame {
        frame,
        frame_index: input::index(from),
    }
}

fn is_entry(from: &mut impl Read, entry: RecentFrame) -> bool {
    let frame = entry.frame;
    input::is_single(from, frame.left)
        & input::is_single(from, frame.right)
        & input::is(from, entry.frame_index as u64)
}

fn next_resampler(from: &mut impl Read) -> Resampler {
    let a = next_entry(from);
    let b = next_entry(from);
    let c = next_entry(from);
    let d = next_entry(from);
    Resampler {
        frames: [a, b, c, d],
        time_until_empty: input::index(from),
    }
}

fn is_resampler(from: &mut impl Read, resampler: Resampler) -> bool {
    let a = resampler.frames[0];
    let b = resampler.frames[1];
    let c = resampler.frames[2];
    let d = resampler.frames[3];
    is_entry(from, a)
        & is_entry(from, b)
        & is_entry(from, c)
        & is_entry(from, d)
        & input::is(from, resampler.time_until_empty as u64)
}

fn next_wraps(from: &mut impl Read) -> Wraps {
    let forward = input::half(from);
    let backward = input::half(from);
    Wraps { forward, backward }
}

fn is_wraps(from: &mut impl Read, wraps: Wraps) -> bool {
    input::is(from, wraps.forward as u64) & input::is(from, wraps.backward as u64)
}

pub(crate) fn next(from: &mut impl Read) -> StaticSound {
    let setup = next_setup(from);
    let playback_rate = input::double(from);
    let started = input::yes(from);
    let fractional_position = input::double(from);
    let state = playback_state(input::next(from));
    let transport = next_transport(from);
    let resampler = next_resampler(from);
    let wraps = next_wraps(from);
    let moving = Moving {
        state,
        transport,
        resampler,
        wraps,
    };
    StaticSound {
        setup,
        playback_rate,
        started,
        fractional_position,
        moving,
    }
}

// Whether the next numbers of the list are this state.
pub(crate) fn are(from: &mut impl Read, voice: StaticSound) -> bool {
    let moving = voice.moving;
    is_setup(from, voice.setup)
        & input::is_double(from, voice.playback_rate)
        & input::is_yes(from, voice.started)
        & input::is_double(from, voice.fractional_position)
        & input::is(from, u32::from(moving.state) as u64)
        & is_transport(from, moving.transport)
        & is_resampler(from, moving.resampler)
        & is_wraps(from, moving.wraps)
}
