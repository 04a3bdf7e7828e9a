// The marked examples of docs/assurance/RULES.md about voices that no theorem states, and both zeros as held rates:
// each is run, printed and compared. 1 Hz, rate 1, a time step of 1 and unit lanes unless stated otherwise. 1 means
// yes.
#![tactic(auto)]

use playback_position::{EndPosition, PlaybackPosition, Region};
use playback_state_manager::StartAnswer;
use refusals::Refusal;
use sound_block::Signals;
use sound_commands::{Commands, LoopCommand, ResumeCommand};
use sound_creation::Settings;
use sound_lanes::Lanes;
use sound_slow_path::Processed;
use sound_state::StaticSound;
use start_time::StartSignal;
use std::io;

// test_leaf_examples has the same tally: a crate of its own for it would be longer than its two fields and one method.
#[derive(Clone, Copy)]
struct Tally {
    examples: u64,
    differ: u64,
}

impl Tally {
    // Prints an example and its result, and counts it.
    fn show(&mut self, rt: &impl Print, name: &str, got: u64, expected: u64) -> io::Result<()> {
        self.examples = self.examples.saturating_add(1);
        if got == expected {
            return println!(rt; "{name}: {got} ok");
        }
        self.differ = self.differ.saturating_add(1);
        println!(rt; "{name}: {got} differs")
    }
}

// ---- inputs

fn frames(start: usize, end: usize) -> Region {
    Region {
        start: PlaybackPosition::Samples(start),
        end: EndPosition::Custom(PlaybackPosition::Samples(end)),
    }
}

fn settings(sample_rate: u32, start: usize, loop_region: Option<Region>) -> Settings {
    Settings {
        sample_rate,
        slice: None,
        start_position: PlaybackPosition::Samples(start),
        loop_region,
        reverse: false,
        playback_rate: 1.0,
        start_waits: false,
    }
}

// A voice, or the blank one.
fn created(settings: Settings, sound: &[f32]) -> StaticSound {
    sound_creation::new(settings, sound).unwrap_or(sound_creation::blank())
}

// The number of a refusal, 0 for none.
fn refusal<T: Drop>(answer: Result<T, Refusal>) -> u64 {
    match answer {
        Ok(_) => 0,
        Err(refusal) => u64::from(refusal),
    }
}

// A sound of three frames: 1, 2, 3 in both channels.
fn three_frames() -> StaticSound {
    let sound = [1.0f32, 1.0, 2.0, 2.0, 3.0, 3.0];
    created(settings(1, 0, None), &sound)
}

fn play(
    voice: StaticSound,
    sound: &[f32],
    unit: &[f32],
    rate: &[f64],
    dt: f64,
    out: &mut [f32],
) -> Result<Processed, Refusal> {
    let lanes = Lanes {
        fade: unit,
        volume: unit,
        left: unit,
        right: unit,
        rate,
    };
    let signals = Signals {
        finished: false,
        start: StartSignal::Answer(StartAnswer::Waiting),
        resume: StartAnswer::Waiting,
    };
    static_sound::process(voice, sound, lanes, dt, signals, out)
}

// The voice after a block; if refused, the given one.
fn played(
    voice: StaticSound,
    sound: &[f32],
    unit: &[f32],
    rate: &[f64],
    out: &mut [f32],
) -> StaticSound {
    play(voice, sound, unit, rate, 1.0, out).map_or(voice, |made| made.voice)
}

fn steps(made: Result<Processed, Refusal>) -> u64 {
    made.map_or(0, |made| made.steps as u64)
}

fn state_number(voice: StaticSound) -> u64 {
    u64::from(u32::from(voice.moving.state))
}

fn position(voice: StaticSound) -> u64 {
    voice.moving.transport.position as u64
}

// ---- three frames

fn is_frame(left: f32, right: f32, value: f32) -> bool {
    left == value && right == value
}

fn is_one_two_three_and_silence(out: &[f32; 12]) -> bool {
    is_frame(out[0], out[1], 1.0)
        && is_frame(out[2], out[3], 2.0)
        && is_frame(out[4], out[5], 3.0)
        && is_frame(out[6], out[7], 0.0)
        && is_frame(out[8], out[9], 0.0)
        && is_frame(out[10], out[11], 0.0)
}

fn six_frames() -> bool {
    let sound = [1.0f32, 1.0, 2.0, 2.0, 3.0, 3.0];
    let unit = [1.0f32; 6];
    let rate = [1.0f64; 6];
    let mut out = [9.0f32; 12];
    let made = play(three_frames(), &sound, &unit, &rate, 1.0, &mut out);
    made.is_ok() && steps(made) == 6 && is_one_two_three_and_silence(&out)
}

// This and others below have arrays of their own lengths: one function for all would need `2 * N` as a const argument,
// which Rattle does not have.
fn state_after_three() -> u64 {
    let sound = [1.0f32, 1.0, 2.0, 2.0, 3.0, 3.0];
    let unit = [1.0f32; 3];
    let rate = [1.0f64; 3];
    let mut out = [9.0f32; 6];
    state_number(played(three_frames(), &sound, &unit, &rate, &mut out))
}

fn state_after_four() -> u64 {
    let sound = [1.0f32, 1.0, 2.0, 2.0, 3.0, 3.0];
    let unit = [1.0f32; 4];
    let rate = [1.0f64; 4];
    let mut out = [9.0f32; 8];
    state_number(played(three_frames(), &sound, &unit, &rate, &mut out))
}

fn show_three_frames(rt: &impl Print, tally: &mut Tally) -> io::Result<()> {
    tally.show(
        rt,
        "three frames, six played: 1, 2, 3, 0, 0, 0",
        u64::from(six_frames()),
        1,
    )?;
    tally.show(rt, "state after the third", state_after_three(), 0)?;
    tally.show(rt, "state after the fourth", state_after_four(), 6)
}

// ---- loops over ten frames

fn creation_with_loop(start: usize, end: usize) -> u64 {
    let sound = [0.0f32; 20];
    let looped = Some(frames(start, end));
    refusal(sound_creation::new(settings(1, 0, looped), &sound))
}

fn commands(loop_region: LoopCommand, seek_by: Option<f64>) -> Commands {
    Commands {
        playback_rate: None,
        loop_region,
        pause: false,
        resume: ResumeCommand::Keep,
        stop: false,
        seek_by,
        seek_to: None,
    }
}

fn loop_command(start: usize, end: usize) -> u64 {
    let sound = [0.0f32; 20];
    let voice = created(settings(1, 0, None), &sound);
    let set = LoopCommand::Set(frames(start, end));
    refusal(sound_commands::on_start_processing(voice, &sound, commands(set, None)))
}

fn show_loops(rt: &impl Print, tally: &mut Tally) -> io::Result<()> {
    tally.show(rt, "created with loop (4, 4)", creation_with_loop(4, 4), 6)?;
    tally.show(
        rt,
        "created with loop (4, 11)",
        creation_with_loop(4, 11),
        6,
    )?;
    tally.show(
        rt,
        "created with loop (0, 10)",
        creation_with_loop(0, 10),
        0,
    )?;
    tally.show(rt, "loop command (4, 4)", loop_command(4, 4), 6)?;
    tally.show(rt, "loop command (4, 11)", loop_command(4, 11), 6)?;
    tally.show(rt, "loop command (0, 10)", loop_command(0, 10), 0)
}

// ---- an advance of 256

fn advanced(lane_rate: f64) -> Result<Processed, Refusal> {
    let sound = [0.0f32; 20];
    let looped = Some(frames(0, 10));
    let voice = created(settings(1, 0, looped), &sound);
    let unit = [1.0f32; 1];
    let rate = [lane_rate; 1];
    let mut out = [9.0f32; 2];
    play(voice, &sound, &unit, &rate, 1.0, &mut out)
}

fn show_advances(rt: &impl Print, tally: &mut Tally) -> io::Result<()> {
    let made = advanced(256.0);
    tally.show(rt, "advance 256", refusal(made), 0)?;
    tally.show(rt, "its steps", steps(made), 256)?;
    let made = advanced(float_bits::f64_of(0x4070_0000_0000_0001));
    tally.show(rt, "the next f64 above 256", refusal(made), 12)?;
    tally.show(rt, "its steps", steps(made), 0)
}

// ---- seek_by(0)

// Created at 12 of 16 frames at 44,100 Hz, so that three updates lead to 15.
fn at_15() -> StaticSound {
    let sound = [0.0f32; 32];
    created(settings(44100, 12, None), &sound)
}

// The voice after a command set; if refused, the given one.
fn commanded(voice: StaticSound, sound: &[f32], set: Commands) -> StaticSound {
    sound_commands::on_start_processing(voice, sound, set).map_or(voice, |done| done.voice)
}

fn seek_by_nothing() -> u64 {
    let sound = [0.0f32; 32];
    let set = commands(LoopCommand::Keep, Some(0.0));
    position(commanded(at_15(), &sound, set))
}

fn show_seeks(rt: &impl Print, tally: &mut Tally) -> io::Result<()> {
    tally.show(rt, "44,100 Hz, position", position(at_15()), 15)?;
    tally.show(rt, "and after seek_by(0)", seek_by_nothing(), 14)
}

// ---- both zeros as held rates

// Created at 1 of three frames: where three updates lead.
fn created_at_rate(playback_rate: f64, reverse: bool) -> u64 {
    let sound = [1.0f32, 1.0, 2.0, 2.0, 3.0, 3.0];
    let held = Settings {
        reverse,
        playback_rate,
        ..settings(1, 1, None)
    };
    position(created(held, &sound))
}

// Created at 4 of ten frames at rate 1: at 7, or with reverse at 2.
fn ten_frames(reverse: bool) -> StaticSound {
    let sound = [0.0f32; 20];
    let held = Settings {
        reverse,
        ..settings(1, 4, None)
    };
    created(held, &sound)
}

fn commanded_rate(voice: StaticSound, rate: f64) -> StaticSound {
    let sound = [0.0f32; 20];
    let set = Commands {
        playback_rate: Some(rate),
        ..commands(LoopCommand::Keep, None)
    };
    commanded(voice, &sound, set)
}

fn one_frame_more(voice: StaticSound) -> StaticSound {
    let sound = [0.0f32; 20];
    let unit = [1.0f32; 1];
    let rate = [1.0f64; 1];
    let mut out = [9.0f32; 2];
    played(voice, &sound, &unit, &rate, &mut out)
}

// A rate command, then a block.
fn commanded_before(rate: f64, reverse: bool) -> u64 {
    position(one_frame_more(commanded_rate(ten_frames(reverse), rate)))
}

// A rate command between the two parts of a cut block.
fn commanded_between(rate: f64, reverse: bool) -> u64 {
    let first = one_frame_more(ten_frames(reverse));
    position(one_frame_more(commanded_rate(first, rate)))
}

fn amplitude_of_minus_zero() -> u64 {
    let sound = [1.0f32, 1.0, 2.0, 2.0, 3.0, 3.0];
    let unit = [-0.0f32; 1];
    let rate = [1.0f64; 1];
    let mut out = [9.0f32; 2];
    refusal(play(three_frames(), &sound, &unit, &rate, 1.0, &mut out))
}

fn show_zeros_at_creation(rt: &impl Print, tally: &mut Tally) -> io::Result<()> {
    tally.show(rt, "created at 0, position", created_at_rate(0.0, false), 3)?;
    tally.show(rt, "created at -0", created_at_rate(-0.0, false), 0)?;
    tally.show(rt, "created at 0, reverse", created_at_rate(0.0, true), 0)?;
    tally.show(rt, "created at -0, reverse", created_at_rate(-0.0, true), 3)
}

fn show_zeros_commanded(rt: &impl Print, tally: &mut Tally) -> io::Result<()> {
    tally.show(
        rt,
        "at 7, rate 0, a frame later",
        commanded_before(0.0, false),
        8,
    )?;
    tally.show(rt, "rate -0", commanded_before(-0.0, false), 6)?;
    tally.show(rt, "at 2, rate 0, reverse", commanded_before(0.0, true), 1)?;
    tally.show(rt, "rate -0, reverse", commanded_before(-0.0, true), 3)?;
    tally.show(
        rt,
        "at 8, rate 0 at the cut",
        commanded_between(0.0, false),
        9,
    )?;
    tally.show(rt, "rate -0", commanded_between(-0.0, false), 7)?;
    tally.show(rt, "at 1, rate 0, reverse", commanded_between(0.0, true), 0)?;
    tally.show(rt, "rate -0, reverse", commanded_between(-0.0, true), 2)
}

fn show_zeros_in_lanes(rt: &impl Print, tally: &mut Tally) -> io::Result<()> {
    let made = advanced(-0.0);
    tally.show(rt, "a lane rate of -0", refusal(made), 0)?;
    tally.show(rt, "its steps", steps(made), 0)?;
    tally.show(rt, "an amplitude of -0", amplitude_of_minus_zero(), 11)
}

// ---- refused calls

// A block with a time step of 0: whether nothing is written. A refused call returns no voice, so the caller keeps the
// one that it passed.
fn refused_block() -> bool {
    let sound = [1.0f32, 1.0, 2.0, 2.0, 3.0, 3.0];
    let unit = [1.0f32; 2];
    let rate = [1.0f64; 2];
    let mut out = [9.0f32; 4];
    let voice = three_frames();
    let made = play(voice, &sound, &unit, &rate, 0.0, &mut out);
    refusal(made) == 10
        && steps(made) == 0
        && position(voice) == position(three_frames())
        && state_number(voice) == state_number(three_frames())
        && out.iter().all(|sample| *sample == 9.0)
}

// A seek to 2^32 frames. It returns no voice and no position either: the voice that was passed stays, and the position
// is positive zero, as C reports it.
fn refused_command_set() -> bool {
    let sound = [0.0f32; 32];
    let set = commands(LoopCommand::Keep, Some(97391.55));
    let voice = at_15();
    let made = sound_commands::on_start_processing(voice, &sound, set);
    let reported = made.map_or(0.0, |done| done.position);
    refusal(made) == 8 && position(voice) == 15 && float_bits::bits_of_f64(reported) == 0
}

fn show_refusals(rt: &impl Print, tally: &mut Tally) -> io::Result<()> {
    tally.show(
        rt,
        "a refused block writes nothing and moves nothing",
        u64::from(refused_block()),
        1,
    )?;
    tally.show(
        rt,
        "a refused command set moves nothing",
        u64::from(refused_command_set()),
        1,
    )
}

fn main(rt: HostRuntime) -> io::Result<()> {
    let mut tally = Tally {
        examples: 0,
        differ: 0,
    };
    show_three_frames(&rt, &mut tally)?;
    show_loops(&rt, &mut tally)?;
    show_advances(&rt, &mut tally)?;
    show_seeks(&rt, &mut tally)?;
    show_zeros_at_creation(&rt, &mut tally)?;
    show_zeros_commanded(&rt, &mut tally)?;
    show_zeros_in_lanes(&rt, &mut tally)?;
    show_refusals(&rt, &mut tally)?;
    let Tally { examples, differ } = tally;
    println!(rt; "{examples} examples, {differ} differ")
}
