// A command set: checks all commands, then applies them in a fixed order (kira's on_start_processing and
// read_commands).
#![tactic(auto)]

ghost use Rattle.std.specs.Prelude.{◌≡◌, ◌≤◌, false, ◌&&◌, cond, T, pos, length};
ghost use Rattle.std.specs.Float.{fin};
ghost use Rattle.std.specs.Float.Ieee.{lt};
ghost use Rattle.numbers.specs.Words.{finite};
ghost use Rattle.numbers.specs.Frames.{most};
ghost use Rattle.playback_state_manager.specs.States.{pausing, stopping};
ghost use Rattle.transport.specs.Moves.{reloop};
ghost use Rattle.resampler.specs.Windows.{current_frame_index};
ghost use Rattle.sound_state.specs.WellFormed.{well_formed_for};
ghost use Rattle.refusals.specs.Numbers.{number_of};
ghost use Rattle.sound_commands.specs.Commands.{
  loopable,
  rateable,
  target_by,
  target_to,
  seekable,
  refused_set,
  looped,
  woken,
  before_seeks,
  sought,
  sought_by,
  sought_to,
  obeyed,
  reported,
  commands_answer,
  commanded,
};

use playback_position::Region;
use playback_state_manager::PlaybackState;
use refusals::Refusal;
use sound_state::StaticSound;
use sound_update::Moving;
use transport::Transport;

#[derive(Clone, Copy, Debug)]
pub enum LoopCommand {
    // Three commands by name: an Option of an Option of a region would say less.
    Keep,
    Clear,
    Set(Region),
}

#[derive(Clone, Copy, Debug, PartialEq, Eq)]
pub enum ResumeCommand {
    // Three commands by name: an Option of a bool would say less.
    Keep,
    Now,
    Waiting,
}

// At most one of each command.
#[derive(Clone, Copy, Debug)]
pub struct Commands {
    pub playback_rate: Option<f64>,
    pub loop_region: LoopCommand,
    pub pause: bool,
    pub resume: ResumeCommand,
    pub stop: bool,
    pub seek_by: Option<f64>,
    pub seek_to: Option<f64>,
}

// An accepted command set: the voice, and the position before it.
#[derive(Clone, Copy, Debug)]
pub struct Commanded {
    pub voice: StaticSound,
    pub position: f64,
}

fn is_loop(voice: StaticSound, command: LoopCommand) -> bool
    ensures { result ≡ loopable voice command }
{
    match command {
        LoopCommand::Keep | LoopCommand::Clear => true,
        LoopCommand::Set(region) => {
            region.is_well_formed(voice.setup.sample_rate, voice.setup.num_frames())
        }
    }
}

fn is_rate(command: Option<f64>) -> bool
    ensures { result ≡ rateable command }
{
    command.is_none_or(|rate| numbers::is_finite(rate))
}

// The target of a seek by the amount, in frames, before it is cut to a whole number.
fn frames_by(voice: StaticSound, amount: f64) -> f64
    requires { voice.moving.transport.position ≤ most }
    ensures { result ≡ target_by voice amount }
{
    let sample_rate = voice.setup.sample_rate as f64;
    (voice.moving.transport.position as f64 / sample_rate + amount) * sample_rate
}

// The target of a seek to the position, in frames, before it is cut to a whole number.
fn frames_to(voice: StaticSound, position: f64) -> f64
    ensures { result ≡ target_to voice position }
{
    position * voice.setup.sample_rate as f64
}

// Whether a seek's amount is finite and its frames are below 2^32.
fn is_seek(amount: f64, frames: f64) -> bool
    ensures { result ≡ (finite amount && lt frames (fin false 1 (pos 32))) }
{
    numbers::is_finite(amount) & (frames < 4294967296.0)
}

// By and to differ in the target alone; one function with the target as a closure would be no shorter than the two.
fn is_seek_by(voice: StaticSound, command: Option<f64>) -> bool
    requires { voice.moving.transport.position ≤ most }
    ensures { result ≡ seekable (target_by voice) command }
{
    command.is_none_or(|amount| is_seek(amount, frames_by(voice, amount)))
}

fn is_seek_to(voice: StaticSound, command: Option<f64>) -> bool
    ensures { result ≡ seekable (target_to voice) command }
{
    command.is_none_or(|position| is_seek(position, frames_to(voice, position)))
}

// The lowest refusal that applies to a command set. Both seeks are checked against the given state.
fn check(voice: StaticSound, samples: usize, commands: Commands) -> Result<(), Refusal>
    ensures { number_of result ≡ refused_set samples voice commands }
{
    if !voice.is_well_formed(samples) {
        return Err(Refusal::State);
    }
    if !is_loop(voice, commands.loop_region) {
        return Err(Refusal::LoopRegion);
    }
    if !is_rate(commands.playback_rate) {
        return Err(Refusal::PlaybackRate);
    }
    if !(is_seek_by(voice, commands.seek_by) & is_seek_to(voice, commands.seek_to)) {
        return Err(Refusal::Seek);
    }
    Ok(())
}

fn set_loop_region(voice: StaticSound, command: LoopCommand) -> Transport
    ensures { result ≡ reloop voice.moving.transport (looped voice command) }
{
    let transport = voice.moving.transport;
    match command {
        LoopCommand::Keep => transport,
        LoopCommand::Clear => transport.set_loop_region(None),
        LoopCommand::Set(region) => {
            let frames = region.into_frames(voice.setup.sample_rate, voice.setup.num_frames());
            transport.set_loop_region(Some(frames))
        }
    }
}

fn pause(state: PlaybackState, command: bool) -> PlaybackState
    ensures { result ≡ cond command (pausing state) state }
{
    if command { state.pause() } else { state }
}

fn resume(state: PlaybackState, command: ResumeCommand) -> PlaybackState
    ensures { result ≡ woken command state }
{
    match command {
        ResumeCommand::Keep => state,
        ResumeCommand::Now => state.resume(false),
        ResumeCommand::Waiting => state.resume(true),
    }
}

fn stop(state: PlaybackState, command: bool) -> PlaybackState
    ensures { result ≡ cond command (stopping state) state }
{
    if command { state.stop() } else { state }
}

// The commands before the seeks: rate, loop, pause, resume, stop.
fn before_seeks(voice: StaticSound, commands: Commands) -> StaticSound
    ensures { result ≡ before_seeks commands voice }
{
    let playback_rate = commands.playback_rate.unwrap_or(voice.playback_rate);
    let transport = set_loop_region(voice, commands.loop_region);
    let state = pause(voice.moving.state, commands.pause);
    let state = resume(state, commands.resume);
    let state = stop(state, commands.stop);
    StaticSound {
        playback_rate,
        moving: Moving {
            state,
            transport,
            ..voice.moving
        },
        ..voice
    }
}

// In the seeks a well formed voice is a clause and no type: it is a fact of the voice together with the length of the
// sound. A state that C passes may be anything, and `StaticSound::is_well_formed` checks it.
fn seek_to_index(voice: StaticSound, index: usize, sound: &[f32]) -> StaticSound
    requires well_formed { T (well_formed_for (length sound.now) voice) }
    requires index_le_most { index ≤ most }
    ensures { result ≡ sought sound.now voice index }
{
    let jumped = Moving {
        transport: voice
            .moving
            .transport
            .seek_to(index, voice.setup.num_frames()),
        ..voice.moving
    };
    // Pushes one frame so that the target frame is not skipped.
    let resampler = if jumped.state.is_advancing() {
        jumped.push_frame_to_resampler(voice.slice(), sound)
    } else {
        jumped.resampler
    };
    StaticSound {
        moving: Moving {
            resampler,
            ..jumped
        },
        ..voice
    }
}

// Two functions, for the reason at `is_seek_by`.
fn seek_by(voice: StaticSound, command: Option<f64>, sound: &[f32]) -> StaticSound
    requires { T (well_formed_for (length sound.now) voice) }
    ensures { result ≡ sought_by sound.now voice command }
{
    match command {
        None => voice,
        Some(amount) => seek_to_index(voice, numbers::cut(frames_by(voice, amount)), sound),
    }
}

fn seek_to(voice: StaticSound, command: Option<f64>, sound: &[f32]) -> StaticSound
    requires { T (well_formed_for (length sound.now) voice) }
    ensures { result ≡ sought_to sound.now voice command }
{
    match command {
        None => voice,
        Some(position) => seek_to_index(voice, numbers::cut(frames_to(voice, position)), sound),
    }
}

// An accepted command set.
fn read_commands(voice: StaticSound, sound: &[f32], commands: Commands) -> StaticSound
    requires { refused_set (length sound.now) voice commands ≡ 0 }
    ensures { result ≡ obeyed sound.now commands voice }
{
    let ready = before_seeks(voice, commands);
    let sought = seek_by(ready, commands.seek_by, sound);
    seek_to(sought, commands.seek_to, sound)
}

// The position of the frame that was read last, in seconds.
fn last_played_position(voice: StaticSound) -> f64
    requires { current_frame_index voice.moving.resampler ≤ most }
    ensures { result ≡ reported voice }
{
    voice.moving.resampler.current_frame_index() as f64 / voice.setup.sample_rate as f64
}

pub fn on_start_processing(
    voice: StaticSound,
    sound: &[f32],
    commands: Commands,
) -> Result<Commanded, Refusal>
    ensures { commands_answer voice result ≡ commanded sound.now voice commands }
{
    check(voice, sound.len(), commands)?;
    let position = last_played_position(voice);
    Ok(Commanded {
        voice: read_commands(voice, sound, commands),
        position,
    })
}
