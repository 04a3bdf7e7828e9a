// The five calls: reads the input from the list, makes the call, and compares each part of its result with the list.
ghost use Rattle.test_sound_list.specs.Counts.{Counts};

use crate::{input, states};
use playback_position::{EndPosition, PlaybackPosition, Region};
use playback_state_manager::StartAnswer;
use refusals::Refusal;
use sound_block::Signals;
use sound_commands::{Commands, LoopCommand, ResumeCommand};
use sound_creation::Settings;
use sound_lanes::Lanes;
use sound_slow_path::Processed;
use sound_state::StaticSound;
use start_time::StartSignal;
use std::io::Read;

// The state after a call, and whether its result equals the list's.
#[derive(Clone, Copy)]
pub struct Answer {
    pub voice: StaticSound,
    pub same: bool,
}

// ---- the input of a call

// 0 is frames, anything else seconds.
fn next_position(from: &mut impl Read) -> PlaybackPosition {
    let kind = input::next(from);
    match kind {
        0 => PlaybackPosition::Samples(input::index(from)),
        _ => PlaybackPosition::Seconds(input::double(from)),
    }
}

// 0 is the end of the audio, anything else a position.
fn next_end(from: &mut impl Read) -> EndPosition {
    let kind = input::next(from);
    match kind {
        0 => EndPosition::EndOfAudio,
        _ => EndPosition::Custom(next_position(from)),
    }
}

fn next_region(from: &mut impl Read) -> Region {
    let start = next_position(from);
    let end = next_end(from);
    Region { start, end }
}

// 0 is none, anything else a region.
fn next_optional_region(from: &mut impl Read) -> Option<Region> {
    let kind = input::next(from);
    match kind {
        0 => None,
        _ => Some(next_region(from)),
    }
}

// 0 is none, anything else an amount. One function for this and the one above would take the reading as a closure, and
// be as long.
fn next_amount(from: &mut impl Read) -> Option<f64> {
    let kind = input::next(from);
    match kind {
        0 => None,
        _ => Some(input::double(from)),
    }
}

// 0 keeps the loop, 1 clears it, anything else sets it.
fn next_loop(from: &mut impl Read) -> LoopCommand {
    let kind = input::next(from);
    match kind {
        0 => LoopCommand::Keep,
        1 => LoopCommand::Clear,
        _ => LoopCommand::Set(next_region(from)),
    }
}

// 0 is none, 1 at once, anything else one that waits.
fn next_resume(from: &mut impl Read) -> ResumeCommand {
    let kind = input::next(from);
    match kind {
        0 => ResumeCommand::Keep,
        1 => ResumeCommand::Now,
        _ => ResumeCommand::Waiting,
    }
}

// 0 is still waiting, 1 now, anything else never.
fn next_answer(from: &mut impl Read) -> StartAnswer {
    let kind = input::next(from);
    match kind {
        0 => StartAnswer::Waiting,
        1 => StartAnswer::Now,
        _ => StartAnswer::Never,
    }
}

fn next_settings(from: &mut impl Read) -> Settings {
    let sample_rate = input::half(from);
    let slice = next_optional_region(from);
    let start_position = next_position(from);
    let loop_region = next_optional_region(from);
    let reverse = input::yes(from);
    let playback_rate = input::double(from);
    let start_waits = input::yes(from);
    Settings {
        sample_rate,
        slice,
        start_position,
        loop_region,
        reverse,
        playback_rate,
        start_waits,
    }
}

fn next_commands(from: &mut impl Read) -> Commands {
    let playback_rate = next_amount(from);
    let loop_region = next_loop(from);
    let pause = input::yes(from);
    let resume = next_resume(from);
    let stop = input::yes(from);
    let seek_by = next_amount(from);
    let seek_to = next_amount(from);
    Commands {
        playback_rate,
        loop_region,
        pause,
        resume,
        stop,
        seek_by,
        seek_to,
    }
}

fn next_signals(from: &mut impl Read) -> Signals {
    let finished = input::yes(from);
    let start = StartSignal::Answer(next_answer(from));
    let resume = next_answer(from);
    Signals {
        finished,
        start,
        resume,
    }
}

// ---- the output

// Before a call, sample i of an output is -(i + 1). The list says how many are passed.
fn prepare(from: &mut impl Read, out: &mut [f32]) -> usize
    ensures { Counts result out.new }
{
    let n = input::count(from, out.len());
    let mut untouched: f32 = -1.0;
    for sample in out.iter_mut() {
        *sample = untouched;
        untouched = untouched - 1.0;
    }
    n
}

// Whether the next numbers of the list are the first samples of an output, and the others are unchanged.
fn is_output(from: &mut impl Read, out: &[f32; 32], count: usize) -> bool {
    let mut same = true;
    let mut untouched: f32 = -1.0;
    for (i, sample) in out.iter().enumerate() {
        if i < count {
            same = input::is_single(from, *sample) & same;
        } else {
            same = (*sample == untouched) & same;
        }
        untouched = untouched - 1.0;
    }
    same
}

// ---- the calls

pub(crate) fn create(from: &mut impl Read, sound: &[f32]) -> Answer {
    let settings = next_settings(from);
    let (voice, refusal) = match sound_creation::new(settings, sound) {
        Ok(voice) => (voice, 0),
        Err(refusal) => (sound_creation::blank(), u64::from(refusal)),
    };
    Answer {
        voice,
        same: input::is(from, refusal) & states::are(from, voice),
    }
}

pub(crate) fn command(from: &mut impl Read, voice: StaticSound, sound: &[f32]) -> Answer {
    let commands = next_commands(from);
    let (voice, position, refusal) = match sound_commands::on_start_processing(
        voice, sound, commands,
    ) {
        Ok(commanded) => (commanded.voice, commanded.position, 0),
        Err(refusal) => (voice, 0.0, u64::from(refusal)),
    };
    Answer {
        voice,
        same: input::is(from, refusal)
            & input::is_double(from, position)
            & states::are(from, voice),
    }
}

// After a refused block: the voice before it, no steps, and 4 for the count.
fn played(
    from: &mut impl Read,
    before: StaticSound,
    made: Result<Processed, Refusal>,
    out: &[f32; 32],
    samples: usize,
) -> Answer {
    let (voice, steps, lowest_count, refusal) = match made {
        Ok(made) => (made.voice, made.steps, made.lowest_count, 0),
        Err(refusal) => (before, 0, 4, u64::from(refusal)),
    };
    Answer {
        voice,
        same: input::is(from, refusal)
            & input::is(from, steps as u64)
            & input::is(from, lowest_count as u64)
            & states::are(from, voice)
            & is_output(from, out, samples),
    }
}

// A block, or a block into a mix, whose first frame comes last.
pub(crate) fn block(
    from: &mut impl Read,
    voice: StaticSound,
    sound: &[f32],
    mixes: bool,
) -> Answer {
    let mut fade = [0.0f32; 32];
    let mut volume = [0.0f32; 32];
    let mut left = [0.0f32; 32];
    let mut right = [0.0f32; 32];
    let mut rate = [0.0f64; 32];
    let mut out = [0.0f32; 32];
    let fades = input::floats(from, &mut fade);
    let volumes = input::floats(from, &mut volume);
    let lefts = input::floats(from, &mut left);
    let rights = input::floats(from, &mut right);
    let rates = input::floats(from, &mut rate);
    let dt = input::double(from);
    let signals = next_signals(from);
    let samples = prepare(from, &mut out);
    let lanes = Lanes {
        fade: &fade[..fades],
        volume: &volume[..volumes],
        left: &left[..lefts],
        right: &right[..rights],
        rate: &rate[..rates],
    };
    let made = if mixes {
        let first = input::index(from);
        let mix = &mut out[..samples];
        static_sound::process_into(voice, sound, lanes, dt, signals, mix, first)
    } else {
        static_sound::process(voice, sound, lanes, dt, signals, &mut out[..samples])
    };
    played(from, voice, made, &out, samples)
}

// Whether the next numbers of the list are the voice's stretch: its length, then its samples.
pub(crate) fn stretch(from: &mut impl Read, voice: StaticSound, sound: &[f32]) -> bool {
    is_part(from, static_sound::stretch(voice, sound))
}

fn is_part(from: &mut impl Read, part: &[f32]) -> bool {
    let mut same = input::is(from, part.len() as u64);
    for sample in part {
        same = input::is_single(from, *sample) & same;
    }
    same
}
