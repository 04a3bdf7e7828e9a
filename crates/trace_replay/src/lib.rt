// Plays one record: from a record and the run so far to the run after it and its line.
#![tactic(auto)]

ghost use Rattle.std.specs.Prelude.{◌≡◌, ◌≤◌, [], length, take, drop, unwrap_or};
ghost use Rattle.sound_state.specs.declared.StaticSound.{StaticSound};
ghost use Rattle.static_sound.specs.Entries.{block_answer};
ghost use Rattle.trace_replay.specs.Runs.{
  blank,
  replay_of,
  answered,
  line_of,
  after_creation,
  after_commands,
  after_block,
  after,
  advanced_of,
  step_of,
};

use refusals::Refusal;
use sound_held::Held;
use sound_slow_path::Processed;
use sound_state::StaticSound;
use trace_inputs::Block;

// The run so far: the voice, how many of the buffer's samples are its sound, and the number of blocks.
#[derive(Clone, Copy)]
pub struct Run {
    pub voice: StaticSound,
    pub samples: usize,
    pub blocks: u64,
}

// A run after a record, and the length of its line.
#[derive(Clone, Copy)]
pub struct PlayedRecord {
    pub run: Run,
    pub written: usize,
}

// A run after the record at an offset, the offset after it, none if the run is over, and the length of its line.
#[derive(Clone, Copy)]
pub struct Advanced {
    pub run: Run,
    pub next: Option<usize>,
    pub written: usize,
}

// The player's result for a block whose frames all have the same numbers.
fn answer(voice: StaticSound, sound: &[f32], block: Block) -> Result<Processed, Refusal>
    requires { block.frames ≤ 1024 }
    ensures { block_answer voice result ≡ answered sound.now voice block }
{
    let mut out = [0.0; 2048];
    let n = 2 * block.frames;
    static_sound::process_held(
        voice,
        sound,
        Held::from(block),
        block.time_step,
        block.signals,
        &mut out[..n],
    )
}

// The line of a block, and its length.
fn put_line(
    line: &mut [u8],
    number: u64,
    frames: usize,
    answer: Result<Processed, Refusal>,
) -> usize
    requires { 139 ≤ length line.old }
    ensures { ((voice : StaticSound) → take result line.new ≡ line_of number frames (block_answer voice answer))
        × (result ≤ length line.new) }
{
    match answer {
        Ok(processed) => trace_lines::put_block(
            line,
            number,
            frames as u64,
            processed.steps as u64,
            u32::from(processed.voice.moving.state) as u64,
            processed.voice.moving.transport.position as u64,
        ),
        Err(refusal) => trace_lines::put_refused_block(line, number, u64::from(refusal)),
    }
}

fn create(run: Run, values: [u64; 80], sound: &mut [f32]) -> Run
    requires { 128 ≤ length sound.old }
    ensures { (replay_of result sound.new
        ≡ (after_creation (replay_of run sound.old) values).replay)
        × (result.samples ≤ length sound.new) }
{
    let samples = trace_inputs::put_samples(values, sound);
    match sound_creation::new(trace_inputs::settings_of(values), &sound[..samples]) {
        Ok(voice) => Run {
            voice,
            samples,
            ..run
        },
        Err(_) => Run {
            voice: sound_creation::blank(),
            samples,
            ..run
        },
    }
}

fn command(run: Run, values: [u64; 80], sound: &[f32]) -> Run
    requires { run.samples ≤ length sound.now }
    ensures { (replay_of result sound.now
        ≡ (after_commands (replay_of run sound.now) values).replay)
        × (result.samples ≤ length sound.now) }
{
    let samples = run.samples;
    let commands = trace_inputs::commands_of(values);
    match sound_commands::on_start_processing(run.voice, &sound[..samples], commands) {
        Ok(commanded) => Run {
            voice: commanded.voice,
            ..run
        },
        Err(_) => run,
    }
}

fn play(run: Run, values: [u64; 80], sound: &[f32], line: &mut [u8]) -> PlayedRecord
    requires { (run.samples ≤ length sound.now) × (139 ≤ length line.old) }
    ensures { (replay_of result.run sound.now
        ≡ (after_block (replay_of run sound.now) values).replay)
        × (take result.written line.new ≡ (after_block (replay_of run sound.now) values).line)
        × (result.run.samples ≤ length sound.now) × (result.written ≤ length line.new) }
{
    let samples = run.samples;
    let block = trace_inputs::block_of(values);
    let answer = answer(run.voice, &sound[..samples], block);
    let blocks = run.blocks.saturating_add(1);
    let written = put_line(line, blocks, block.frames, answer);
    match answer {
        Ok(processed) => PlayedRecord {
            run: Run {
                voice: processed.voice,
                blocks,
                ..run
            },
            written,
        },
        Err(_) => PlayedRecord {
            run: Run { blocks, ..run },
            written,
        },
    }
}

// One record: the run after it, and its line. The kind is a number, as in the record read; any but 1 and 2 is a block.
pub fn play_record(
    run: Run,
    kind: u64,
    values: [u64; 80],
    sound: &mut [f32],
    line: &mut [u8],
) -> PlayedRecord
    requires { (128 ≤ length sound.old) × (run.samples ≤ length sound.old) × (139 ≤ length line.old) }
    ensures { (replay_of result.run sound.new
        ≡ (after (replay_of run sound.old) kind values).replay)
        × (take result.written line.new ≡ (after (replay_of run sound.old) kind values).line)
        × (result.run.samples ≤ length sound.new) × (result.written ≤ length line.new) }
{
    match kind {
        1 => PlayedRecord {
            run: create(run, values, sound),
            written: 0,
        },
        2 => PlayedRecord {
            run: command(run, values, sound),
            written: 0,
        },
        _ => play(run, values, sound, line),
    }
}

// The record at an offset of the bytes, which is `place` in the whole trace: the run after it, and its line.
pub fn advance(
    run: Run,
    bytes: &[u8],
    at: usize,
    place: u64,
    sound: &mut [f32],
    line: &mut [u8],
) -> Advanced
    requires { (at ≤ length bytes.now) × (128 ≤ length sound.old) × (run.samples ≤ length sound.old)
        × (139 ≤ length line.old) }
    ensures { (advanced_of result at sound.new line.new
        ≡ step_of (replay_of run sound.old) place (drop at bytes.now))
        × (unwrap_or result.next at ≤ length bytes.now) × (result.run.samples ≤ length sound.new)
        × (result.written ≤ length line.new) × (at ≤ unwrap_or result.next at) }
{
    if at == bytes.len() {
        return Advanced {
            run,
            next: None,
            written: 0,
        };
    }
    match trace_records::read(bytes, at) {
        Ok(record) => {
            let values = record.values;
            let played = play_record(run, record.kind, values, sound, line);
            Advanced {
                run: played.run,
                next: Some(record.next),
                written: played.written,
            }
        }
        Err(refusal) => Advanced {
            run,
            next: None,
            written: trace_lines::put_refused(line, u64::from(refusal), place),
        },
    }
}

// Before any record.
pub fn begin() -> Run
    ensures { (replay_of result [] ≡ blank) × (result.samples ≡ 0) }
{
    Run {
        voice: sound_creation::blank(),
        samples: 0,
        blocks: 0,
    }
}
