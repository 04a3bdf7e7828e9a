// The C entries, over records of numbers by value and slices. They accept any bytes; an unknown value is refused with
// its field's number.
#![tactic(auto)]

ghost use Rattle.std.specs.Prelude.{◌≡◌, ◌≤◌, IfOk};
ghost use Rattle.std.specs.Result.{result_unwrap_or};
ghost use Rattle.refusals.specs.Numbers.{number_of};
ghost use Rattle.sound_creation.specs.Creation.{created};
ghost use Rattle.sound_commands.specs.Commands.{commands_answer, commanded};
ghost use Rattle.sound_lanes.specs.Lanes.{five};
ghost use Rattle.static_sound.specs.Entries.{block_answer};
ghost use Rattle.c_state.specs.Records.{decoded};
ghost use Rattle.cableowl.specs.Entries.{
  created_as,
  created_c,
  commanded_as,
  commanded_c,
  answered,
  processed_c,
  processed_into_c,
  part_c,
};

mod copies;
mod fades;
mod halves;
mod loops;
mod once;
mod replays;
mod replays_v2;
mod saved;
mod traces;

use c_inputs::{CableowlCommands, CableowlSettings, CableowlSignals};
use c_state::{CableowlState, encode};
pub use copies::{
    CopyChanged, cableowl_clear_copy, cableowl_loop_copy, cableowl_merge_copies,
    cableowl_write_copy,
};
pub use fades::{cableowl_amplitude, cableowl_fade_ramp};
pub use halves::{cableowl_load_half, cableowl_store_half};
pub use loops::{
    LoopChanged, LoopFound, cableowl_clear_loop, cableowl_loop_table, cableowl_read_loop,
    cableowl_take_loop, cableowl_write_loop,
};
pub use once::{cableowl_process_held, cableowl_process_held_into};
use refusals::Refusal;
pub use replays::{CableowlReplay, CableowlReplayed, cableowl_replay, cableowl_replay_step};
pub use replays_v2::{cableowl_replay_step_v2, cableowl_replay_v2};
pub use saved::{cableowl_load_settings, cableowl_settings_of, cableowl_store_settings};
use sound_block::Signals;
use sound_commands::{Commanded, Commands};
use sound_creation::Settings;
use sound_lanes::Lanes;
use sound_slow_path::Processed;
use sound_state::StaticSound;
pub use traces::{
    Record, Saved, Sent, cableowl_read_record, cableowl_read_record_v2, cableowl_salvage,
    cableowl_salvage_v2, cableowl_write_record, cableowl_write_record_v2,
};

#[repr(C)]
#[derive(Clone, Copy)]
pub struct CableowlCreated {
    pub state: CableowlState,
    pub refusal: u32,
}

#[repr(C)]
#[derive(Clone, Copy)]
pub struct CableowlCommanded {
    pub state: CableowlState,
    pub position: f64,
    pub refusal: u32,
}

#[repr(C)]
#[derive(Clone, Copy)]
pub struct CableowlProcessed {
    pub state: CableowlState,
    pub steps: u64,
    pub refusal: u32,
    pub lowest_count: u32,
}

// A part of the sound, in samples.
#[repr(C)]
#[derive(Clone, Copy)]
pub struct CableowlPart {
    pub offset: u64,
    pub length: u64,
}

// A value and 0 or, after a refusal, the given one and its number.
fn value_or<T: Copy>(given: T, answer: Result<T, Refusal>) -> (T, u32)
    ensures { result ≡ (result_unwrap_or answer given, number_of answer) }
{
    match answer {
        Ok(value) => (value, 0),
        Err(refusal) => (given, u32::from(refusal)),
    }
}

// The refusal's number, 0 if there is none.
fn number_of(answer: Result<(), Refusal>) -> u32
    ensures { result ≡ number_of answer }
{
    value_or((), answer).1
}

// A creation; if it is refused, the blank state.
fn create(settings: Settings, sound: &[f32]) -> CableowlCreated
    ensures { result ≡ created_as (created sound.now settings) }
{
    let made = sound_creation::new(settings, sound);
    let (voice, refusal) = value_or(sound_creation::blank(), made);
    CableowlCreated {
        state: encode(voice),
        refusal,
    }
}

// The answer of a command set; if it is refused, the given state. A count of at most 4 is a clause, as in `encode`: the
// voice's type has any count, since C may pass any.
fn command_answer(commanded: Result<Commanded, Refusal>, state: CableowlState) -> CableowlCommanded
    requires { IfOk commanded (λ c. c.voice.moving.resampler.time_until_empty ≤ 4) }
    ensures { result ≡ commanded_as (commands_answer (decoded state) commanded) state }
{
    match commanded {
        Ok(commanded) => CableowlCommanded {
            state: encode(commanded.voice),
            position: commanded.position,
            refusal: 0,
        },
        Err(refusal) => CableowlCommanded {
            state,
            position: 0.0,
            refusal: u32::from(refusal),
        },
    }
}

fn command(state: CableowlState, sound: &[f32], commands: Commands) -> CableowlCommanded
    ensures { result ≡ commanded_as (commanded sound.now (decoded state) commands) state }
{
    let voice = StaticSound::from(state);
    command_answer(
        sound_commands::on_start_processing(voice, sound, commands),
        state,
    )
}

// The answer of a block; if it is refused, the given state.
fn answer(processed: Result<Processed, Refusal>, state: CableowlState) -> CableowlProcessed
    requires { IfOk processed (λ p. (p.voice.moving.resampler.time_until_empty ≤ 4) × (p.lowest_count ≤ 4)) }
    ensures { result ≡ answered (block_answer (decoded state) processed) state }
{
    match processed {
        Ok(processed) => CableowlProcessed {
            state: encode(processed.voice),
            steps: processed.steps as u64,
            refusal: 0,
            lowest_count: processed.lowest_count as u32,
        },
        Err(refusal) => CableowlProcessed {
            state,
            steps: 0,
            refusal: u32::from(refusal),
            lowest_count: 4,
        },
    }
}

// The version of this interface.
#[unsafe(no_mangle)]
pub extern "C" fn cableowl_version() -> u32
    ensures { result ≡ 2 }
{
    2
}

#[unsafe(no_mangle)]
pub extern "C" fn cableowl_new(settings: CableowlSettings, sound: &[f32]) -> CableowlCreated
    ensures { result ≡ created_c sound.now settings }
{
    create(Settings::from(settings), sound)
}

#[unsafe(no_mangle)]
pub extern "C" fn cableowl_on_start_processing(
    state: CableowlState,
    sound: &[f32],
    commands: CableowlCommands,
) -> CableowlCommanded
    ensures { result ≡ commanded_c sound.now state commands }
{
    command(state, sound, Commands::from(commands))
}

#[unsafe(no_mangle)]
pub extern "C" fn cableowl_process(
    state: CableowlState,
    sound: &[f32],
    fade: &[f32],
    volume: &[f32],
    left: &[f32],
    right: &[f32],
    rate: &[f64],
    dt: f64,
    signals: CableowlSignals,
    out: &mut [f32],
) -> CableowlProcessed
    ensures { record { answer = result; samples = out.new }
        ≡ processed_c sound.now state dt (five fade.now volume.now left.now right.now rate.now) signals
        out.old }
{
    let lanes = Lanes {
        fade,
        volume,
        left,
        right,
        rate,
    };
    let processed = static_sound::process(
        StaticSound::from(state),
        sound,
        lanes,
        dt,
        Signals::from(signals),
        out,
    );
    answer(processed, state)
}

// Into the middle of a longer mix, from the given frame on.
#[unsafe(no_mangle)]
pub extern "C" fn cableowl_process_into(
    state: CableowlState,
    sound: &[f32],
    fade: &[f32],
    volume: &[f32],
    left: &[f32],
    right: &[f32],
    rate: &[f64],
    dt: f64,
    signals: CableowlSignals,
    mix: &mut [f32],
    from: u64,
) -> CableowlProcessed
    ensures { record { answer = result; samples = mix.new }
        ≡ processed_into_c sound.now state dt (five fade.now volume.now left.now right.now rate.now) signals
        mix.old from }
{
    let lanes = Lanes {
        fade,
        volume,
        left,
        right,
        rate,
    };
    let processed = static_sound::process_into(
        StaticSound::from(state),
        sound,
        lanes,
        dt,
        Signals::from(signals),
        mix,
        from as usize,
    );
    answer(processed, state)
}

// The offset and length of the part that `static_sound::stretch` returns.
#[unsafe(no_mangle)]
pub extern "C" fn cableowl_stretch(state: CableowlState, sound: &[f32]) -> CableowlPart
    ensures { result ≡ part_c sound.now state }
{
    let voice = StaticSound::from(state);
    let part = static_sound::stretch(voice, sound);
    let length = part.len();
    if length == 0 {
        return CableowlPart {
            offset: 0,
            length: 0,
        };
    }
    CableowlPart {
        offset: (2 * voice.setup.start()) as u64,
        length: length as u64,
    }
}
