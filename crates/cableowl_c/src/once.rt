// Blocks with held lanes: five numbers that apply to every frame.
ghost use Rattle.std.specs.Prelude.{◌≡◌};
ghost use Rattle.cableowl.specs.Entries.{held_as, processed_held_c, processed_held_into_c};

use c_inputs::CableowlSignals;
use c_state::CableowlState;
use cableowl::CableowlProcessed;

// As many frames as the output has space for.
#[unsafe(no_mangle)]
pub extern "C" fn cableowl_process_held(
    state: CableowlState,
    sound: &[f32],
    fade: f32,
    volume: f32,
    left: f32,
    right: f32,
    rate: f64,
    dt: f64,
    signals: CableowlSignals,
    out: &mut [f32],
) -> CableowlProcessed
    ensures { record { answer = result; samples = out.new }
        ≡ processed_held_c sound.now state dt
        (held_as fade volume left right rate) signals
        out.old }
{
    cableowl::cableowl_process_held(
        state, sound, fade, volume, left, right, rate, dt, signals, out,
    )
}

// This many frames into the middle of a longer mix, from the given frame on.
#[unsafe(no_mangle)]
pub extern "C" fn cableowl_process_held_into(
    state: CableowlState,
    sound: &[f32],
    fade: f32,
    volume: f32,
    left: f32,
    right: f32,
    rate: f64,
    dt: f64,
    signals: CableowlSignals,
    mix: &mut [f32],
    from: u64,
    frames: u64,
) -> CableowlProcessed
    ensures { record { answer = result; samples = mix.new }
        ≡ processed_held_into_c sound.now state dt
        (held_as fade volume left right rate) signals
        mix.old from frames }
{
    cableowl::cableowl_process_held_into(
        state, sound, fade, volume, left, right, rate, dt, signals, mix, from, frames,
    )
}
