// The slow path: a block of a started, advancing voice, frame by frame (the loop of kira's StaticSound::process).
#![tactic(auto)]

ghost use Rattle.std.specs.Prelude.{◌≡◌, ◌/◌, cond, T, eqb, length};
ghost use Rattle.numbers.specs.Words.{proper};
ghost use Rattle.sound_lanes.specs.Lanes.{lanes_of, rows};
ghost use Rattle.sound_slow_path.specs.Plays.{plays, accepted, accepted_as};
ghost use Rattle.sound_slow_path.specs.FrameSteps.{
  frame_with_gains_at,
  frame_steps,
  Steppable,
  Alike,
  spread,
  Playable,
};

use resampler::{Reading, Resampler};
use sound_lanes::{Gains, Lanes};
use sound_state::StaticSound;
use sound_update::{Moving, Slice};

// The result of a block: the voice after it, its steps, and the lowest count that it read.
#[derive(Clone, Copy)]
pub struct Processed {
    pub voice: StaticSound,
    pub steps: usize,
    pub lowest_count: usize,
}

// The result of one frame: the moving part, the fraction, and its steps.
#[derive(Clone, Copy, Debug)]
pub struct AfterFrame {
    pub moving: Moving,
    pub fractional_position: f64,
    pub steps: usize,
}

// A frame: the window's reading times fade, times volume, times each channel's gain; and the count of the reading.
fn frame_with_gains(window: Resampler, fractional_position: f64, gains: Gains) -> Reading
    requires { T (proper fractional_position) }
    ensures { result ≡ frame_with_gains_at window fractional_position gains }
{
    let read = window.get(numbers::narrow(fractional_position));
    Reading {
        frame: gains.scale(read.frame),
        count: read.count,
    }
}

// One frame's steps.
fn frame_steps(
    moving: Moving,
    fractional_position: f64,
    slice: Slice,
    sample_rate: u32,
    rate: f64,
    dt: f64,
    sound: &[f32],
) -> AfterFrame
    requires { Steppable sound.now slice sample_rate rate dt moving fractional_position }
    ensures { result ≡ frame_steps sound.now slice sample_rate rate dt moving fractional_position }
{
    let advance = (sample_rate as f64) * numbers::magnitude(rate) * dt;
    let sum = numbers::advance_by(fractional_position, advance);
    AfterFrame {
        moving: moving.update_positions(slice, sound, sum.steps),
        fractional_position: sum.fraction,
        steps: sum.steps,
    }
}

// The frame of its lanes that frame i of a block reads: lanes of one frame apply to every frame.
fn lane_frame(frames: usize, i: usize) -> usize
    ensures { result ≡ cond (eqb frames 1) 0 i }
{
    if frames == 1 { 0 } else { i }
}

// A started, advancing block; lanes of one frame apply to every frame. What a block asks, `Playable`, is a clause and
// no invariant of a type: it ties a voice to the sound, the lanes and the output. C may pass anything for each of them,
// and `static_sound` checks them. Voice, time step, sound and output are parameters side by side; static_sound says
// why.
pub fn play_spread(
    voice: StaticSound,
    dt: f64,
    sound: &[f32],
    lanes: Lanes<'_>,
    out: &mut [f32],
) -> Processed
    requires alike { Alike (lanes_of lanes) }
    requires playable { Playable sound.now voice dt
        (spread (length out.old / 2) (lanes_of lanes)) (length out.old) }
    ensures { record { answer = accepted result; samples = out.new }
        ≡ accepted_as (plays sound.now dt
        (rows (spread (length out.old / 2) (lanes_of lanes.entry))) voice) }
{
    let slice = voice.slice();
    let frames = out.len() / 2;
    let mut moving = voice.moving;
    let mut fractional_position = voice.fractional_position;
    let mut steps: usize = 0;
    let mut lowest_count: usize = 4;
    for i in 0..frames {
        let window = moving.resampler;
        let j = lane_frame(lanes.rate.len(), i);
        let read = frame_with_gains(window, fractional_position, lanes.gains(j));
        out[2 * i] = read.frame.left;
        out[2 * i + 1] = read.frame.right;
        lowest_count = lowest_count.min(read.count);
        let next = frame_steps(
            moving,
            fractional_position,
            slice,
            voice.setup.sample_rate,
            lanes.rate[j],
            dt,
            sound,
        );
        moving = next.moving;
        fractional_position = next.fractional_position;
        steps += next.steps;
    }
    Processed {
        voice: StaticSound {
            fractional_position,
            moving,
            ..voice
        },
        steps,
        lowest_count,
    }
}

// A started, advancing block.
pub fn play(
    voice: StaticSound,
    dt: f64,
    sound: &[f32],
    lanes: Lanes<'_>,
    out: &mut [f32],
) -> Processed
    requires { Playable sound.now voice dt (lanes_of lanes) (length out.old) }
    ensures { record { answer = accepted result; samples = out.new }
        ≡ accepted_as (plays sound.now dt (rows (lanes_of lanes.entry)) voice) }
{
    play_spread(voice, dt, sound, lanes, out)
}
