// The C interface: each export calls cableowl's function of its name and states its clauses.
#![tactic(auto)]

ghost use Rattle.std.specs.Prelude.{◌≡◌};
ghost use Rattle.sound_lanes.specs.Lanes.{five};
ghost use Rattle.cableowl.specs.Entries.{created_c, commanded_c, processed_c, processed_into_c, part_c};

mod copies;
mod fades;
mod halves;
mod loops;
mod once;
mod replays;
mod replays_v2;
mod saved;
mod traces;

use c_inputs::{CableowlCommands, CableowlSettings, CableowlSignals};
use c_state::CableowlState;
use cableowl::{CableowlCommanded, CableowlCreated, CableowlPart, CableowlProcessed};

// The version of this interface.
#[unsafe(no_mangle)]
pub extern "C" fn cableowl_version() -> u32
    ensures { result ≡ 2 }
{
    cableowl::cableowl_version()
}

#[unsafe(no_mangle)]
pub extern "C" fn cableowl_new(settings: CableowlSettings, sound: &[f32]) -> CableowlCreated
    ensures { result ≡ created_c sound.now settings }
{
    cableowl::cableowl_new(settings, sound)
}

#[unsafe(no_mangle)]
pub extern "C" fn cableowl_on_start_processing(
    state: CableowlState,
    sound: &[f32],
    commands: CableowlCommands,
) -> CableowlCommanded
    ensures { result ≡ commanded_c sound.now state commands }
{
    cableowl::cableowl_on_start_processing(state, sound, commands)
}

#[unsafe(no_mangle)]
pub extern "C" fn cableowl_process(
    state: CableowlState,
    sound: &[f32],
    fade: &[f32],
    volume: &[f32],
    left: &[f32],
    right: &[f32],
    rate: &[f64],
    dt: f64,
    signals: CableowlSignals,
    out: &mut [f32],
) -> CableowlProcessed
    ensures { record { answer = result; samples = out.new }
        ≡ processed_c sound.now state dt (five fade.now volume.now left.now right.now rate.now) signals
        out.old }
{
    cableowl::cableowl_process(
        state, sound, fade, volume, left, right, rate, dt, signals, out,
    )
}

// Into the middle of a longer mix, from the given frame on.
#[unsafe(no_mangle)]
pub extern "C" fn cableowl_process_into(
    state: CableowlState,
    sound: &[f32],
    fade: &[f32],
    volume: &[f32],
    left: &[f32],
    right: &[f32],
    rate: &[f64],
    dt: f64,
    signals: CableowlSignals,
    mix: &mut [f32],
    from: u64,
) -> CableowlProcessed
    ensures { record { answer = result; samples = mix.new }
        ≡ processed_into_c sound.now state dt (five fade.now volume.now left.now right.now rate.now) signals
        mix.old from }
{
    cableowl::cableowl_process_into(
        state, sound, fade, volume, left, right, rate, dt, signals, mix, from,
    )
}

// The offset and length of the part that `static_sound::stretch` returns.
#[unsafe(no_mangle)]
pub extern "C" fn cableowl_stretch(state: CableowlState, sound: &[f32]) -> CableowlPart
    ensures { result ≡ part_c sound.now state }
{
    cableowl::cableowl_stretch(state, sound)
}
