// Settings, commands and signals from C records. Kinds, tags and flags are numbers there, and any number may come: an
// unknown tag becomes a value that its field's check refuses, as a NaN.
#![tactic(auto)]

ghost use Rattle.std.specs.Prelude.{◌≡◌};
ghost use Rattle.c_inputs.specs.Inputs.{
  position_of,
  end_of,
  region_if,
  optional_of,
  settings_of,
  amount_of,
  loop_of,
  resume_of,
  commands_of,
  answer_of,
  start_of,
  signals_of,
};

use playback_position::{EndPosition, PlaybackPosition, Region};
use playback_state_manager::StartAnswer;
use sound_block::Signals;
use sound_commands::{Commands, LoopCommand, ResumeCommand};
use sound_creation::Settings;
use start_time::StartSignal;

// A position in a sound: kind 0 is seconds, 1 samples, and for an end 2 the end of audio.
#[repr(C)]
#[derive(Clone, Copy)]
pub struct CableowlPlace {
    pub seconds: f64,
    pub samples: u64,
    pub kind: u32,
}

#[repr(C)]
#[derive(Clone, Copy)]
pub struct CableowlRegion {
    pub start: CableowlPlace,
    pub end: CableowlPlace,
}

// The settings of a creation.
#[repr(C)]
#[derive(Clone, Copy)]
pub struct CableowlSettings {
    pub sample_rate: u32,
    pub has_slice: u32,
    pub has_loop: u32,
    pub reverse: u32,
    pub start_waits: u32,
    pub playback_rate: f64,
    pub start: CableowlPlace,
    pub slice: CableowlRegion,
    pub loop_region: CableowlRegion,
}

// A command set. The loop command is 0 keep, 1 clear, 2 set; resume is 0 no, 1 at once, 2 waits.
#[repr(C)]
#[derive(Clone, Copy)]
pub struct CableowlCommands {
    pub has_rate: u32,
    pub loop_command: u32,
    pub pause: u32,
    pub resume: u32,
    pub stop: u32,
    pub has_seek_by: u32,
    pub has_seek_to: u32,
    pub rate: f64,
    pub seek_by: f64,
    pub seek_to: f64,
    pub loop_region: CableowlRegion,
}

// The signals of a block. An answer is 0 still waiting, 1 now, 2 never; a start can also be 3: due at a tick, with
// the current tick.
#[repr(C)]
#[derive(Clone, Copy)]
pub struct CableowlSignals {
    pub finished: u32,
    pub start: u32,
    pub resume: u32,
    pub due: u32,
    pub now: u32,
}

impl From<CableowlPlace> for PlaybackPosition {
    ghost from_gives = { λ place position. position ≡ position_of place };

    #[tactic(auto, using(crate::proofs::Nan::nan_is))]
    fn from(place: CableowlPlace) -> PlaybackPosition {
        match place.kind {
            0 => PlaybackPosition::Seconds(place.seconds),
            1 => PlaybackPosition::Samples(place.samples as usize),
            _ => PlaybackPosition::Seconds(f64::NAN),
        }
    }
}

impl From<CableowlPlace> for EndPosition {
    ghost from_gives = { λ place end. end ≡ end_of place };

    fn from(place: CableowlPlace) -> EndPosition {
        match place.kind {
            2 => EndPosition::EndOfAudio,
            _ => EndPosition::Custom(PlaybackPosition::from(place)),
        }
    }
}

// The region if its tag is known, otherwise one that is refused.
#[tactic(auto, using(crate::proofs::Nan::nan_is))]
fn region_if(known: bool, region: CableowlRegion) -> Region
    ensures { result ≡ region_if known region }
{
    if known {
        Region {
            start: PlaybackPosition::from(region.start),
            end: EndPosition::from(region.end),
        }
    } else {
        Region {
            start: PlaybackPosition::Seconds(f64::NAN),
            end: EndPosition::EndOfAudio,
        }
    }
}

fn optional_of(has: u32, region: CableowlRegion) -> Option<Region>
    ensures { result ≡ optional_of has region }
{
    match has {
        0 => None,
        _ => Some(region_if(has == 1, region)),
    }
}

impl From<CableowlSettings> for Settings {
    ghost from_gives = { λ given settings. settings ≡ settings_of given };

    fn from(settings: CableowlSettings) -> Settings {
        Settings {
            sample_rate: settings.sample_rate,
            slice: optional_of(settings.has_slice, settings.slice),
            start_position: PlaybackPosition::from(settings.start),
            loop_region: optional_of(settings.has_loop, settings.loop_region),
            reverse: settings.reverse != 0,
            playback_rate: settings.playback_rate,
            start_waits: settings.start_waits != 0,
        }
    }
}

#[tactic(auto, using(crate::proofs::Nan::nan_is))]
fn amount_of(has: u32, x: f64) -> Option<f64>
    ensures { result ≡ amount_of has x }
{
    match has {
        0 => None,
        1 => Some(x),
        _ => Some(f64::NAN),
    }
}

fn loop_of(command: u32, region: CableowlRegion) -> LoopCommand
    ensures { result ≡ loop_of command region }
{
    match command {
        0 => LoopCommand::Keep,
        1 => LoopCommand::Clear,
        _ => LoopCommand::Set(region_if(command == 2, region)),
    }
}

// A function and no `From`, as is `answer_of`: the numbers are C's, and the crate of the type does not know them.
fn resume_of(n: u32) -> ResumeCommand
    ensures { result ≡ resume_of n }
{
    match n {
        0 => ResumeCommand::Keep,
        1 => ResumeCommand::Now,
        _ => ResumeCommand::Waiting,
    }
}

impl From<CableowlCommands> for Commands {
    ghost from_gives = { λ given commands. commands ≡ commands_of given };

    fn from(commands: CableowlCommands) -> Commands {
        Commands {
            playback_rate: amount_of(commands.has_rate, commands.rate),
            loop_region: loop_of(commands.loop_command, commands.loop_region),
            pause: commands.pause != 0,
            resume: resume_of(commands.resume),
            stop: commands.stop != 0,
            seek_by: amount_of(commands.has_seek_by, commands.seek_by),
            seek_to: amount_of(commands.has_seek_to, commands.seek_to),
        }
    }
}

fn answer_of(n: u32) -> StartAnswer
    ensures { result ≡ answer_of n }
{
    match n {
        1 => StartAnswer::Now,
        2 => StartAnswer::Never,
        _ => StartAnswer::Waiting,
    }
}

fn start_of(kind: u32, due: u32, now: u32) -> StartSignal
    ensures { result ≡ start_of kind due now }
{
    match kind {
        3 => StartSignal::Tick(due, now),
        _ => StartSignal::Answer(answer_of(kind)),
    }
}

impl From<CableowlSignals> for Signals {
    ghost from_gives = { λ given signals. signals ≡ signals_of given };

    fn from(signals: CableowlSignals) -> Signals {
        Signals {
            finished: signals.finished != 0,
            start: start_of(signals.start, signals.due, signals.now),
            resume: answer_of(signals.resume),
        }
    }
}
