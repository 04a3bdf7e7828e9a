// The fast path: if the window is four neighbouring frames of the track (a contiguous window), the frames are read in
// the sound (crate sound_fast_held), then multiplied by their gains (crate sound_gains).
// Otherwise, and after the track's end, the block is played by sound_slow_path.
#![tactic(auto)]

ghost use Rattle.std.specs.Prelude.{◌≡◌, true, T, length};
ghost use Rattle.sound_fast_reading.specs.Moves.{number, Same};
ghost use Rattle.numbers.specs.Lists.{all};
ghost use Rattle.sound_lanes.specs.Lanes.{rows};
ghost use Rattle.sound_fast_reading.specs.Scans.{begun, Scannable, Scanned};
ghost use Rattle.sound_slow_path.specs.Plays.{plays, accepted, accepted_as};
ghost use Rattle.sound_slow_path.specs.FrameSteps.{Playable};
ghost use Rattle.sound_fast_path.specs.BlockLanes.{block_lanes};

mod block_lanes;

pub use block_lanes::BlockLanes;
use sound_fast_reading::{Reached, Way};
use sound_slow_path::Processed;
use sound_state::StaticSound;
use sound_track::Track;

// Whether a loop is so short that nearly every 16 frames wrap.
fn is_short(track: Track) -> bool {
    track.looped && track.high.saturating_sub(track.low) < 16
}

// Whether the advance is computed once: all rates are the same, and the loop is not short.
fn goes_steadily(track: Track, rate: &[f64]) -> bool
    requires { T (all number rate.now) }
    ensures { result ≡ true → Same rate.now }
{
    !is_short(track) && sound_fast_reading::is_steady(rate)
}

// To the track's end. If all rates are the same, the advance is computed once.
fn scan(way: Way, sound: &[f32], rate: &[f64], out: &mut [f32]) -> Reached
    requires scannable { Scannable sound.now way rate.now }
    requires scanned { Scanned sound.now way rate.now (begun way) out.old }
    ensures { Scanned sound.now way rate.now result out.new }
{
    if goes_steadily(way.track, rate) {
        return sound_fast_held::scan_held(way, sound, rate[0], rate.len(), out);
    }
    sound_fast_held::scan(way, sound, rate, out)
}

// A block of a started, advancing voice: along the track if the window is a contiguous window, the rest frame by frame.
// Voice, time step, sound and output are parameters side by side; static_sound says why.
pub fn play(
    voice: StaticSound,
    dt: f64,
    sound: &[f32],
    lanes: BlockLanes<'_>,
    out: &mut [f32],
) -> Processed
    requires { Playable sound.now voice dt (block_lanes lanes) (length out.old) }
    ensures { record { answer = accepted result; samples = out.new }
        ≡ accepted_as (plays sound.now dt (rows (block_lanes lanes.entry)) voice) }
{
    let moving = voice.moving;
    let transport = moving.transport;
    let track = sound_track::track_of(transport.loop_region, voice.slice());
    if !track.is_contiguous(moving, sound) {
        return lanes.play_from(voice, dt, sound, 0, out);
    }
    let way = Way {
        track,
        at: moving.resampler.frames[0].frame_index,
        fractional_position: voice.fractional_position,
        dt,
        sample_rate: voice.setup.sample_rate,
    };
    let frames = out.len() / 2;
    let reached = lanes.scan(way, sound, out);
    lanes.apply_gains(reached.next, out);
    let wraps = track.wraps_after(transport.position, reached.steps, moving.wraps);
    let passed = StaticSound {
        fractional_position: reached.fractional_position,
        moving: track.contiguous_at(moving, sound, reached.at, wraps),
        ..voice
    };
    if reached.next == frames {
        return Processed {
            voice: passed,
            steps: reached.steps,
            lowest_count: 4,
        };
    }
    let played = lanes.play_from(passed, dt, sound, reached.next, out);
    Processed {
        steps: reached.steps + played.steps,
        ..played
    }
}
