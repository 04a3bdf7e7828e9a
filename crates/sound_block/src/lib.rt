// An accepted block: applies its signals, then plays or writes silence.
#![tactic(auto)]

ghost use Rattle.std.specs.Prelude.{◌≡◌, length, replicate};
ghost use Rattle.numbers.specs.Words.{positive_zero};
ghost use Rattle.sound_lanes.specs.Lanes.{rows};
ghost use Rattle.sound_slow_path.specs.Plays.{accepted, accepted_as};
ghost use Rattle.sound_slow_path.specs.FrameSteps.{Playable};
ghost use Rattle.sound_fast_path.specs.BlockLanes.{block_lanes};
ghost use Rattle.sound_block.specs.Blocks.{begun, live, block};

use playback_state_manager::{PlaybackState, StartAnswer};
use sound_fast_path::{BlockLanes, play};
use sound_slow_path::Processed;
use sound_state::StaticSound;
use sound_update::Moving;
use start_time::StartSignal;

// The signals of a block: whether the fade has finished, an answer or a tick for the sound's start, and an answer for
// a waiting resume.
#[derive(Clone, Copy, Debug, PartialEq, Eq)]
pub struct Signals {
    pub finished: bool,
    pub start: StartSignal,
    pub resume: StartAnswer,
}

// Applies the signals: the state, then the answer of the start signal.
fn begin(voice: StaticSound, signals: Signals) -> StaticSound
    ensures { result ≡ begun signals voice }
{
    let settled = voice.moving.state.update(signals.finished, signals.resume);
    let (started, state) = if voice.started {
        (true, settled)
    } else {
        match signals.start.answer() {
            StartAnswer::Waiting => (false, settled),
            StartAnswer::Now => (true, settled),
            StartAnswer::Never => (false, PlaybackState::Stopped),
        }
    };
    StaticSound {
        started,
        moving: Moving {
            state,
            ..voice.moving
        },
        ..voice
    }
}

// Started, and in a state that advances.
fn is_live(voice: StaticSound) -> bool
    ensures { result ≡ live voice }
{
    voice.started && voice.moving.state.is_advancing()
}

fn silence(out: &mut [f32])
    ensures { out.new ≡ replicate (length out.old) positive_zero }
{
    out.fill(0.0);
}

// The block of a well formed voice over checked lanes. Its parameters stand side by side; static_sound says why.
pub fn block(
    voice: StaticSound,
    dt: f64,
    signals: Signals,
    sound: &[f32],
    lanes: BlockLanes<'_>,
    out: &mut [f32],
) -> Processed
    requires { Playable sound.now voice dt (block_lanes lanes) (length out.old) }
    ensures { record { answer = accepted result; samples = out.new }
        ≡ accepted_as (block sound.now dt (rows (block_lanes lanes.entry)) signals voice) }
{
    let begun = begin(voice, signals);
    if is_live(begun) {
        return play(begun, dt, sound, lanes, out);
    }
    silence(out);
    Processed {
        voice: begun,
        steps: 0,
        lowest_count: 4,
    }
}
