// Blocks with held lanes: five numbers that apply to every frame.
ghost use Rattle.std.specs.Prelude.{◌≡◌};
ghost use Rattle.cableowl.specs.Entries.{held_as, processed_held_c, processed_held_into_c};

use crate::{CableowlProcessed, answer};
use c_inputs::CableowlSignals;
use c_state::CableowlState;
use sound_block::Signals;
use sound_held::Held;
use sound_lanes::Gains;
use sound_state::StaticSound;

// As many frames as the output has space for.
#[unsafe(no_mangle)]
pub extern "C" fn cableowl_process_held(
    state: CableowlState,
    sound: &[f32],
    fade: f32,
    volume: f32,
    left: f32,
    right: f32,
    rate: f64,
    dt: f64,
    signals: CableowlSignals,
    out: &mut [f32],
) -> CableowlProcessed
    ensures { record { answer = result; samples = out.new }
        ≡ processed_held_c sound.now state dt
        (held_as fade volume left right rate) signals
        out.old }
{
    let gains = Gains {
        fade,
        volume,
        left,
        right,
    };
    let processed = static_sound::process_held(
        StaticSound::from(state),
        sound,
        Held { gains, rate },
        dt,
        Signals::from(signals),
        out,
    );
    answer(processed, state)
}

// This many frames into the middle of a longer mix, from the given frame on.
#[unsafe(no_mangle)]
pub extern "C" fn cableowl_process_held_into(
    state: CableowlState,
    sound: &[f32],
    fade: f32,
    volume: f32,
    left: f32,
    right: f32,
    rate: f64,
    dt: f64,
    signals: CableowlSignals,
    mix: &mut [f32],
    from: u64,
    frames: u64,
) -> CableowlProcessed
    ensures { record { answer = result; samples = mix.new }
        ≡ processed_held_into_c sound.now state dt
        (held_as fade volume left right rate) signals
        mix.old from frames }
{
    let gains = Gains {
        fade,
        volume,
        left,
        right,
    };
    let processed = static_sound::process_held_into(
        StaticSound::from(state),
        sound,
        Held { gains, rate },
        dt,
        Signals::from(signals),
        mix,
        from as usize,
        frames as usize,
    );
    answer(processed, state)
}
