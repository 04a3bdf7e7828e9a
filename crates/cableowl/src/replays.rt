// The C ABI of a replay: the next record of a trace, read and played (docs/formats/TRACE.md).
ghost use Rattle.std.specs.Prelude.{◌≡◌, ◌&&◌, ◌≤◌, Ok, IfOk, cond, eqb, leb, length, take};
ghost use Rattle.std.proofs.lemmas.List.Edits.{sets};
ghost use Rattle.refusals.specs.Numbers.{number, number_of};
ghost use Rattle.sound_state.specs.Refusals.{unless};
ghost use Rattle.static_sound.specs.Entries.{block_answer};
ghost use Rattle.trace_inputs.specs.Inputs.{samples_of};
ghost use Rattle.trace_records.specs.Records.{record_read};
ghost use Rattle.c_state.specs.Records.{decoded};
ghost use Rattle.cableowl.specs.Replays.{
  blank_by,
  blank_replay,
  onward,
  behind,
  played_as,
  unplayed,
  creation_over,
  creation_c,
  commands_c,
  block_c,
  block_step,
  played_record,
  refused_step,
  stepped_c,
};
ghost use Rattle.cableowl.specs.ReplaysV2.{of_kind};

use crate::{CableowlProcessed, answer, command, create};
use c_state::{CableowlState, encode};
use refusals::Refusal;
use sound_held::Held;
use sound_slow_path::Processed;
use sound_state::StaticSound;
use trace_inputs::Block;
use trace_records::Record;

// A replay between two records: the voice, how many samples at the start of the caller's buffer are its sound, the
// number of blocks so far, and the offset of the next record in the trace. `reader` is 1, the trace version that it
// reads. `given` is 0: reader 1 plays only the recorded sound.
#[repr(C)]
#[derive(Clone, Copy)]
pub struct CableowlReplay {
    pub voice: CableowlState,
    pub samples: u64,
    pub blocks: u64,
    pub offset: u64,
    pub reader: u32,
    pub given: u32,
}

// The result of a step. C reads `what` and `kind` as numbers: `what` is 0 if it played a record, 1 if it needs more
// bytes, 2 if the trace has ended, 3 if the record is refused and 4 if the call is refused. For a record: its size in
// bytes, its kind and the player's refusal. For a block also its frames, its steps and its lowest count.
#[repr(C)]
#[derive(Clone, Copy)]
pub struct CableowlReplayed {
    pub replay: CableowlReplay,
    pub size: u64,
    pub frames: u64,
    pub steps: u64,
    pub what: u64,
    pub kind: u64,
    pub refusal: u64,
    pub lowest_count: u64,
}

fn onward_of(at: u64, n: u64) -> u64
    ensures { result ≡ onward at n }
{
    at.saturating_add(n)
}

pub(crate) fn behind_record(
    replay: CableowlReplay,
    size: u64,
    voice: CableowlState,
    samples: u64,
    blocks: u64,
) -> CableowlReplay
    ensures { result ≡ behind replay size voice samples blocks }
{
    CableowlReplay {
        voice,
        samples,
        blocks,
        offset: onward_of(replay.offset, size),
        ..replay
    }
}

pub(crate) fn played(
    replay: CableowlReplay,
    size: u64,
    kind: u64,
    refusal: u32,
    frames: u64,
    steps: u64,
    lowest_count: u32,
) -> CableowlReplayed
    ensures { result ≡ played_as replay size kind refusal frames steps lowest_count }
{
    CableowlReplayed {
        replay,
        size,
        frames,
        steps,
        what: 0,
        kind,
        refusal: refusal as u64,
        lowest_count: lowest_count as u64,
    }
}

pub(crate) fn not_played(replay: CableowlReplay, what: u64, refusal: u64) -> CableowlReplayed
    ensures { result ≡ unplayed replay what refusal }
{
    CableowlReplayed {
        replay,
        size: 0,
        frames: 0,
        steps: 0,
        what,
        kind: 0,
        refusal,
        lowest_count: 4,
    }
}

// The answer to a call that is refused.
pub(crate) fn refused_call(replay: CableowlReplay, refusal: Refusal) -> CableowlReplayed
    ensures { result ≡ unplayed replay 4 (number refusal) }
{
    not_played(replay, 4, u64::from(refusal))
}

// The answer where there are no bytes. `ended` stays the number that C passes, here and below: 0 if more bytes may
// come, any other if none will.
pub(crate) fn no_record(replay: CableowlReplay, ended: u32) -> CableowlReplayed
    ensures { result ≡ cond (eqb ended 0) (unplayed replay 1 0) (unplayed replay 2 0) }
{
    match ended {
        0 => not_played(replay, 1, 0),
        _ => not_played(replay, 2, 0),
    }
}

// The answer to a record that is refused; where only its end is missing, more bytes are needed as long as more may
// come.
pub(crate) fn refused_record(
    replay: CableowlReplay,
    ended: u32,
    refusal: Refusal,
) -> CableowlReplayed
    ensures { result ≡ cond (eqb (number refusal) 18 && eqb ended 0) (unplayed replay 1 0)
        (unplayed replay 3 (number refusal)) }
{
    if refusal == Refusal::Truncated && ended == 0 {
        not_played(replay, 1, 0)
    } else {
        not_played(replay, 3, u64::from(refusal))
    }
}

// Plays a creation record over these samples. A record's size and numbers stand beside the replay, here and below, as
// the definitions take them.
pub(crate) fn create_over(
    replay: CableowlReplay,
    size: u64,
    kind: u64,
    values: [u64; 80],
    sound: &[f32],
) -> CableowlReplayed
    ensures { result ≡ creation_over sound.now kind replay size values }
{
    let created = create(trace_inputs::settings_of(values), sound);
    let samples = sound.len() as u64;
    let after = behind_record(replay, size, created.state, samples, replay.blocks);
    played(after, size, kind, created.refusal, 0, 0, 4)
}

// Plays a creation record with its samples: writes its sound to the start of the buffer `sound`.
pub(crate) fn create_with(
    replay: CableowlReplay,
    size: u64,
    values: [u64; 80],
    sound: &mut [f32],
) -> CableowlReplayed
    requires { 128 ≤ length sound.old }
    ensures { (result ≡ creation_c replay size values)
        × (sound.new ≡ sets sound.old 0 (samples_of values)) }
{
    let samples = trace_inputs::put_samples(values, sound);
    create_over(replay, size, 1, values, &sound[..samples])
}

// Plays a command set record.
pub(crate) fn obey(
    replay: CableowlReplay,
    size: u64,
    values: [u64; 80],
    sound: &[f32],
) -> CableowlReplayed
    ensures { result ≡ commands_c sound.now replay size values }
{
    let obeyed = command(replay.voice, sound, trace_inputs::commands_of(values));
    let after = behind_record(replay, size, obeyed.state, replay.samples, replay.blocks);
    played(after, size, 2, obeyed.refusal, 0, 0, 4)
}

// The answer of a block. The block is counted.
pub(crate) fn count_block(
    replay: CableowlReplay,
    size: u64,
    kind: u64,
    frames: usize,
    processed: Result<Processed, Refusal>,
) -> CableowlReplayed
    requires { IfOk processed (λ p. (p.voice.moving.resampler.time_until_empty ≤ 4) × (p.lowest_count ≤ 4)) }
    ensures { result ≡ of_kind kind
        (block_c replay size frames (block_answer (decoded replay.voice) processed)) }
{
    let answered = answer(processed, replay.voice);
    let after = behind_record(
        replay,
        size,
        answered.state,
        replay.samples,
        replay.blocks.saturating_add(1),
    );
    played(
        after,
        size,
        kind,
        answered.refusal,
        frames as u64,
        answered.steps,
        answered.lowest_count,
    )
}

// Plays a block record into the first samples of the output. That the buffers hold the record is a clause: it ties the
// replay to two buffers that C passes, and `check` tests it.
pub(crate) fn play(
    replay: CableowlReplay,
    size: u64,
    values: [u64; 80],
    sound: &[f32],
    out: &mut [f32],
) -> CableowlReplayed
    requires { (replay.samples ≤ length sound.now) × (2048 ≤ length out.old) }
    ensures { record { answer = result; sound = sound.now; samples = out.new }
        ≡ block_step replay size values sound.now out.old }
{
    let samples = replay.samples as usize;
    let block = trace_inputs::block_of(values);
    let n = 2 * block.frames;
    let processed = static_sound::process_held(
        StaticSound::from(replay.voice),
        &sound[..samples],
        Held::from(block),
        block.time_step,
        block.signals,
        &mut out[..n],
    );
    count_block(replay, size, 3, block.frames, processed)
}

// Plays one record, by its kind, a number from 1 to 3 as C reads it too.
fn play_record(
    replay: CableowlReplay,
    read: Record,
    sound: &mut [f32],
    out: &mut [f32],
) -> CableowlReplayed
    requires { (128 ≤ length sound.old) × (replay.samples ≤ length sound.old) × (2048 ≤ length out.old) }
    ensures { record { answer = result; sound = sound.new; samples = out.new }
        ≡ played_record replay (record_read 0 (Ok read)) sound.old out.old }
{
    let size = read.next as u64;
    let values = read.values;
    let samples = replay.samples as usize;
    match read.kind {
        1 => create_with(replay, size, values, sound),
        2 => obey(replay, size, values, &sound[..samples]),
        _ => play(replay, size, values, sound, out),
    }
}

// Whether the buffers for a sound and for an output hold those of any record.
pub(crate) fn check_room(sound: usize, out: usize) -> Result<(), Refusal>
    ensures { number_of result ≡ unless (leb 128 sound && leb 2048 out) 19 0 }
{
    if (128 <= sound) & (2048 <= out) {
        Ok(())
    } else {
        Err(Refusal::Room)
    }
}

fn check(replay: CableowlReplay, sound: usize, out: usize) -> Result<(), Refusal>
    ensures { number_of result ≡ refused_step replay sound out }
{
    if !((replay.reader == 1) & (replay.given == 0) & (replay.samples <= sound as u64)) {
        return Err(Refusal::State);
    }
    check_room(sound, out)
}

// The replay of a reader before the first record.
pub(crate) fn blank(reader: u32) -> CableowlReplay
    ensures { result ≡ blank_by reader }
{
    CableowlReplay {
        voice: encode(sound_creation::blank()),
        samples: 0,
        blocks: 0,
        offset: 0,
        reader,
        given: 0,
    }
}

// The replay before the first record.
#[unsafe(no_mangle)]
pub extern "C" fn cableowl_replay() -> CableowlReplay
    ensures { result ≡ blank_replay }
{
    blank(1)
}

// Reads and plays the next record of a trace; returns what it did and the replay after it.
// cableowl_replay_step_v2 has the same steps, and shares the functions of those that are equal. One text for both is no
// plainer: they check, read and play differently, and each of the three would be a closure over the caller's buffers.
#[unsafe(no_mangle)]
pub extern "C" fn cableowl_replay_step(
    replay: CableowlReplay,
    bytes: &[u8],
    ended: u32,
    sound: &mut [f32],
    out: &mut [f32],
) -> CableowlReplayed
    ensures { record { answer = result; sound = sound.new; samples = out.new }
        ≡ stepped_c replay bytes.now ended sound.old out.old }
{
    if let Err(refusal) = check(replay, sound.len(), out.len()) {
        return refused_call(replay, refusal);
    }
    if bytes.len() == 0 {
        return no_record(replay, ended);
    }
    match trace_records::read(bytes, 0) {
        Ok(read) => play_record(replay, read, sound, out),
        Err(refusal) => refused_record(replay, ended, refusal),
    }
}
