// A record's numbers as settings, a sound, commands or a block. Floats are stored by their bits, also NaN.
#![tactic(auto)]

ghost use Rattle.std.specs.Prelude.{◌≡◌, ◌≤◌, length, take, drop, replicate};
ghost use Rattle.std.proofs.lemmas.List.Edits.{sets};
ghost use Rattle.numbers.specs.Words.{positive_zero};
ghost use Rattle.byte_layout.specs.Numbers.{num};
ghost use Rattle.trace_inputs.specs.Inputs.{
  half,
  single,
  double,
  yes,
  at_most,
  position_of,
  end_of,
  region_of,
  optional_of,
  settings_of,
  samples_of,
  given_samples,
  amount_of,
  loop_of,
  resume_of,
  commands_of,
  answer_of,
  signals_of,
  block_of,
  held_of,
  laned_block_of,
  lane_of,
  singles,
  doubles,
};
ghost use Rattle.std.specs.Prelude.{ℕ};
ghost use Rattle.std.proofs.Common.{rules};

use playback_position::{EndPosition, PlaybackPosition, Region};
use playback_state_manager::StartAnswer;
use sound_block::Signals;
use sound_commands::{Commands, LoopCommand, ResumeCommand};
use sound_creation::Settings;
use sound_held::Held;
use sound_lanes::Gains;
use start_time::StartSignal;

// A block whose frames all have the same numbers.
#[derive(Clone, Copy)]
pub struct Block {
    pub frames: usize,
    pub fade: f32,
    pub volume: f32,
    pub left: f32,
    pub right: f32,
    pub rate: f64,
    pub time_step: f64,
    pub signals: Signals,
}

// A laned block, without its lanes.
#[derive(Clone, Copy)]
pub struct LanedBlock {
    pub frames: usize,
    pub time_step: f64,
    pub signals: Signals,
}

// Functions and no `From`: a `From` needs a type of this crate, and eighty numbers alone do not say of which kind of
// record they are.

// ---- numbers

fn half_of(n: u64) -> u32
    ensures { result ≡ half n }
{
    (n % 4294967296) as u32
}

fn single_of(n: u64) -> f32
    ensures { result ≡ single n }
{
    float_bits::f32_of(half_of(n))
}

fn yes_of(n: u64) -> bool
    ensures { result ≡ yes n }
{
    n == 1
}

fn at_most(most: u64, n: u64) -> usize
    ensures { result ≡ at_most most n }
{
    n.min(most) as usize
}

// ---- positions and regions

fn position_of(unit: u64, n: u64) -> PlaybackPosition
    ensures { result ≡ position_of unit n }
{
    match unit {
        0 => PlaybackPosition::Samples(n as usize),
        _ => PlaybackPosition::Seconds(float_bits::f64_of(n)),
    }
}

fn end_of(tag: u64, n: u64) -> EndPosition
    ensures { result ≡ end_of tag n }
{
    match tag {
        0..=2 => EndPosition::EndOfAudio,
        3 | 4 => EndPosition::Custom(position_of(0, n)),
        _ => EndPosition::Custom(position_of(1, n)),
    }
}

fn region_of(tag: u64, start: u64, end: u64) -> Region
    ensures { result ≡ region_of tag start end }
{
    let unit = 1 - tag % 2;
    Region {
        start: position_of(unit, start),
        end: end_of(tag, end),
    }
}

// ---- creation

fn optional_of(tag: u64, start: u64, end: u64) -> Option<Region>
    ensures { result ≡ optional_of tag start end }
{
    match tag {
        0 => None,
        _ => Some(region_of(tag, start, end)),
    }
}

pub fn settings_of(values: [u64; 80]) -> Settings
    ensures { result ≡ settings_of values }
{
    Settings {
        sample_rate: half_of(values[0]),
        slice: optional_of(values[1], values[2], values[3]),
        start_position: position_of(values[4], values[5]),
        loop_region: optional_of(values[6], values[7], values[8]),
        reverse: yes_of(values[9]),
        playback_rate: float_bits::f64_of(values[10]),
        start_waits: yes_of(values[11]),
    }
}

// Writes the samples of a creation's sound to the start of out, and returns their number.
pub fn put_samples(values: [u64; 80], out: &mut [f32]) -> usize
    requires { 128 ≤ length out.old }
    ensures { (out.new ≡ sets out.old 0 (samples_of values))
        × (result ≡ length (samples_of values)) }
{
    let n = at_most(64, values[12]);
    for k in 0..n {
        let x = values[13 + k];
        out[2 * k] = single_of(x);
        out[2 * k + 1] = single_of(x / 4294967296);
    }
    2 * n
}

// How many samples of a given sound a creation plays.
pub fn given_samples_of(values: [u64; 80]) -> usize
    ensures { result ≡ given_samples values }
{
    let frames = values[12];
    if frames <= 16777216 {
        2 * (frames as usize)
    } else {
        0
    }
}

// ---- commands

fn amount_of(tag: u64, n: u64) -> Option<f64>
    ensures { result ≡ amount_of tag n }
{
    match tag {
        0 => None,
        _ => Some(float_bits::f64_of(n)),
    }
}

fn loop_of(tag: u64, start: u64, end: u64) -> LoopCommand
    ensures { result ≡ loop_of tag start end }
{
    match tag {
        0 => LoopCommand::Keep,
        1 => LoopCommand::Clear,
        _ => LoopCommand::Set(region_of(tag - 1, start, end)),
    }
}

fn resume_of(n: u64) -> ResumeCommand
    ensures { result ≡ resume_of n }
{
    match n {
        0 => ResumeCommand::Keep,
        1 => ResumeCommand::Now,
        _ => ResumeCommand::Waiting,
    }
}

pub fn commands_of(values: [u64; 80]) -> Commands
    ensures { result ≡ commands_of values }
{
    Commands {
        playback_rate: amount_of(values[0], values[1]),
        loop_region: loop_of(values[2], values[3], values[4]),
        pause: yes_of(values[5]),
        resume: resume_of(values[6]),
        stop: yes_of(values[7]),
        seek_by: amount_of(values[8], values[9]),
        seek_to: amount_of(values[10], values[11]),
    }
}

// ---- a block

fn answer_of(n: u64) -> StartAnswer
    ensures { result ≡ answer_of n }
{
    match n {
        0 => StartAnswer::Waiting,
        1 => StartAnswer::Now,
        _ => StartAnswer::Never,
    }
}

fn signals_of(finished: u64, start: u64, resume: u64) -> Signals
    ensures { result ≡ signals_of finished start resume }
{
    Signals {
        finished: yes_of(finished),
        start: StartSignal::Answer(answer_of(start)),
        resume: answer_of(resume),
    }
}

pub fn block_of(values: [u64; 80]) -> Block
    ensures { result ≡ block_of values }
{
    Block {
        frames: at_most(1024, values[0]),
        fade: single_of(values[1]),
        volume: single_of(values[2]),
        left: single_of(values[3]),
        right: single_of(values[4]),
        rate: float_bits::f64_of(values[5]),
        time_step: float_bits::f64_of(values[6]),
        signals: signals_of(values[7], values[8], values[9]),
    }
}

// The five numbers of a block, for each of its frames.
impl From<Block> for Held {
    ghost from_gives = { λ block held. held ≡ held_of block };

    fn from(block: Block) -> Held {
        let gains = Gains {
            fade: block.fade,
            volume: block.volume,
            left: block.left,
            right: block.right,
        };
        Held {
            gains,
            rate: block.rate,
        }
    }
}

// ---- a laned block

pub fn laned_block_of(values: [u64; 80]) -> LanedBlock
    ensures { result ≡ laned_block_of values }
{
    let frames = at_most(1024, values[0]);
    LanedBlock {
        frames,
        time_step: float_bits::f64_of(values[1]),
        signals: signals_of(values[2], values[3], values[4]),
    }
}

// The number in the bytes from an offset on; a byte past the end counts as 0.
fn number_of(bytes: &[u8], at: usize, width: usize) -> u64
    requires { width ≤ 8 }
    ensures { result ≡ num (take width (drop at bytes.now)) }
{
    if bytes.len() < at {
        return 0;
    }
    let left = bytes.len() - at;
    byte_layout::number(bytes, at, width.min(left))
}

// A value of a lane: the first bytes of its frame are its bits.
trait LaneValue: Copy {
    ghost WIDTH: { ℕ };

    ghost value: { ℕ → Self };

    const WIDTH: usize;

    fn of_bits(bits: u64) -> Self
        ensures { result ≡ value bits };

    ghost narrow: { WIDTH ≤ 8 };
}

impl LaneValue for f32 {
    ghost WIDTH = { 4 };

    ghost value = { λ bits. single bits };

    ghost narrow = { Prim.search rules };

    const WIDTH: usize = 4;

    fn of_bits(bits: u64) -> f32 {
        single_of(bits)
    }
}

impl LaneValue for f64 {
    ghost WIDTH = { 8 };

    ghost value = { λ bits. double bits };

    ghost narrow = { Prim.search rules };

    const WIDTH: usize = 8;

    fn of_bits(bits: u64) -> f64 {
        float_bits::f64_of(bits)
    }
}

// A lane from the bytes of its frames, with the first value at this offset. Zeros follow it.
fn lane_of<T: LaneValue>(bytes: &[u8], at: usize, frames: usize) -> [T; 1024]
    requires { (at ≤ 64) × (frames ≤ 1024) }
    ensures { result ≡ sets (replicate 1024 (T.value 0)) 0
        (lane_of T.WIDTH T.value frames (drop at bytes.now)) }
{
    let mut lane = [T::of_bits(0); 1024];
    for i in 0..frames {
        lane[i] = T::of_bits(number_of(bytes, at + 24 * i, T::WIDTH));
    }
    lane
}

// The lane as f32 and as f64. Two names, since each contract cites its own definition, `singles` or `doubles`.
pub fn singles_of(bytes: &[u8], at: usize, frames: usize) -> [f32; 1024]
    requires { (at ≤ 64) × (frames ≤ 1024) }
    ensures { result ≡ sets (replicate 1024 positive_zero) 0 (singles frames (drop at bytes.now)) }
{
    lane_of(bytes, at, frames)
}

pub fn doubles_of(bytes: &[u8], at: usize, frames: usize) -> [f64; 1024]
    requires { (at ≤ 64) × (frames ≤ 1024) }
    ensures { result ≡ sets (replicate 1024 positive_zero) 0 (doubles frames (drop at bytes.now)) }
{
    lane_of(bytes, at, frames)
}
