// The C ABI of a replay for trace version 2: the next record of any of the five kinds, read and played
// (docs/formats/TRACE.md, "Version 2").
ghost use Rattle.std.specs.Prelude.{◌≡◌, ◌*◌, ◌≤◌, Ok, eqb, length};
ghost use Rattle.refusals.specs.Numbers.{number_of};
ghost use Rattle.static_sound.specs.Entries.{block_answer};
ghost use Rattle.trace_inputs.specs.Inputs.{given_samples};
ghost use Rattle.trace_records.specs.Records.{record_read};
ghost use Rattle.cableowl.specs.ReplaysV2.{
  blank_replay_v2,
  playing,
  other_sound,
  refused_given,
  given_c,
  laned_outcome,
  laned_step,
  obeyed,
  played_record_v2,
  lacking,
  refused_step_v2,
  stepped_v2,
};

use crate::replays::{
    CableowlReplay, CableowlReplayed, behind_record, blank, check_room, count_block, create_over,
    create_with, no_record, obey, play, played, refused_call, refused_record,
};
use c_state::encode;
use refusals::Refusal;
use sound_lanes::Lanes;
use sound_slow_path::Processed;
use sound_state::StaticSound;
use trace_inputs::LanedBlock;
use trace_records::Record;

fn playing_of(given: u32, replay: CableowlReplay) -> CableowlReplay
    ensures { result ≡ playing given replay }
{
    CableowlReplay { given, ..replay }
}

fn is_twice(n: usize, frames: u64) -> bool
    ensures { result ≡ eqb n (2 * frames) }
{
    let half = (n / 2) as u64;
    (half == frames) & (n % 2 == 0)
}

// C gives `sounds` as a number, and any may come: 0 if the host has no sounds, 1 if the given one has the recorded
// digest, any other if it has other sounds only.
fn is_other_sound(sounds: u32, len: usize, values: [u64; 80]) -> bool
    ensures { result ≡ other_sound sounds len values }
{
    match sounds {
        0 => false,
        1 => !is_twice(len, values[12]),
        _ => true,
    }
}

// A creation that is refused with 26: the voice is blank and has no sound.
fn refuse_sound(replay: CableowlReplay, size: u64) -> CableowlReplayed
    ensures { result ≡ refused_given replay size }
{
    let voice = encode(sound_creation::blank());
    let after = behind_record(playing_of(1, replay), size, voice, 0, replay.blocks);
    played(after, size, 4, u32::from(Refusal::OtherSound), 0, 0, 4)
}

// Plays a creation record over a given sound.
fn create_over_given(
    replay: CableowlReplay,
    size: u64,
    values: [u64; 80],
    given: &[f32],
    sounds: u32,
) -> CableowlReplayed
    requires { sounds ≡ 0 → given_samples values ≤ length given.now }
    ensures { result ≡ given_c given.now sounds replay size values }
{
    if is_other_sound(sounds, given.len(), values) {
        return refuse_sound(replay, size);
    }
    let samples = trace_inputs::given_samples_of(values);
    create_over(playing_of(1, replay), size, 4, values, &given[..samples])
}

// The player's result for a block whose lanes are in the record's bytes.
fn process_lanes(
    voice: StaticSound,
    sound: &[f32],
    block: LanedBlock,
    bytes: &[u8],
    out: &mut [f32],
) -> Result<Processed, Refusal>
    requires { block.frames ≤ 1024 }
    ensures { record { answer = block_answer voice result; samples = out.new }
        ≡ laned_outcome sound.now voice block bytes.now out.old }
{
    let n = block.frames;
    let fade = trace_inputs::singles_of(bytes, 18, n);
    let volume = trace_inputs::singles_of(bytes, 22, n);
    let left = trace_inputs::singles_of(bytes, 26, n);
    let right = trace_inputs::singles_of(bytes, 30, n);
    let rate = trace_inputs::doubles_of(bytes, 34, n);
    let lanes = Lanes {
        fade: &fade[..n],
        volume: &volume[..n],
        left: &left[..n],
        right: &right[..n],
        rate: &rate[..n],
    };
    static_sound::process(voice, sound, lanes, block.time_step, block.signals, out)
}

// Plays a block record with a value for each frame into the first samples of the output.
fn play_lanes(
    replay: CableowlReplay,
    size: u64,
    values: [u64; 80],
    bytes: &[u8],
    sound: &[f32],
    out: &mut [f32],
) -> CableowlReplayed
    requires { (replay.samples ≤ length sound.now) × (2048 ≤ length out.old) }
    ensures { record { answer = result; sound = sound.now; samples = out.new }
        ≡ laned_step replay size values bytes.now sound.now out.old }
{
    let samples = replay.samples as usize;
    let block = trace_inputs::laned_block_of(values);
    let n = 2 * block.frames;
    let processed = process_lanes(
        StaticSound::from(replay.voice),
        &sound[..samples],
        block,
        bytes,
        &mut out[..n],
    );
    count_block(replay, size, 5, block.frames, processed)
}

// Plays a command set or a block. The kind is a number here too, as C reads it.
fn obey_or_play(
    replay: CableowlReplay,
    read: Record,
    bytes: &[u8],
    sound: &[f32],
    out: &mut [f32],
) -> CableowlReplayed
    requires { (replay.samples ≤ length sound.now) × (2048 ≤ length out.old) }
    ensures { record { answer = result; sound = sound.now; samples = out.new }
        ≡ obeyed replay (record_read 0 (Ok read)) bytes.now sound.now out.old }
{
    let size = read.next as u64;
    let values = read.values;
    let samples = replay.samples as usize;
    match read.kind {
        2 => obey(replay, size, values, &sound[..samples]),
        5 => play_lanes(replay, size, values, bytes, sound, out),
        _ => play(replay, size, values, sound, out),
    }
}

// Plays one record, by its kind, a number from 1 to 5 as C reads it too.
fn play_record_v2(
    replay: CableowlReplay,
    read: Record,
    bytes: &[u8],
    sound: &mut [f32],
    given: &[f32],
    sounds: u32,
    out: &mut [f32],
) -> CableowlReplayed
    requires { (128 ≤ length sound.old) × (2048 ≤ length out.old)
        × (replay.given ≡ 0 → replay.samples ≤ length sound.old)
        × (lacking replay (record_read 0 (Ok read)) sounds (length given.now) ≡ 0) }
    ensures { record { answer = result; sound = sound.new; samples = out.new }
        ≡ played_record_v2 replay (record_read 0 (Ok read)) bytes.now sound.old given.now
        sounds out.old }
{
    let size = read.next as u64;
    let values = read.values;
    match read.kind {
        1 => create_with(playing_of(0, replay), size, values, sound),
        4 => create_over_given(replay, size, values, given, sounds),
        _ => {
            if replay.given == 0 {
                obey_or_play(replay, read, bytes, sound, out)
            } else {
                obey_or_play(replay, read, bytes, given, out)
            }
        }
    }
}

// Whether the given buffer is long enough for the record.
fn check_given(replay: CableowlReplay, read: Record, sounds: u32, len: usize) -> Result<(), Refusal>
    ensures { number_of result ≡ lacking replay (record_read 0 (Ok read)) sounds len }
{
    if read.kind == 4 {
        let samples = trace_inputs::given_samples_of(read.values);
        if (sounds != 0) | (samples <= len) {
            return Ok(());
        }
        return Err(Refusal::Room);
    }
    if (read.kind == 1) | (replay.given == 0) | (replay.samples <= len as u64) {
        return Ok(());
    }
    Err(Refusal::State)
}

fn check(replay: CableowlReplay, sound: usize, out: usize) -> Result<(), Refusal>
    ensures { number_of result ≡ refused_step_v2 replay sound out }
{
    let held = (replay.given == 1) | (replay.samples <= sound as u64);
    if !((replay.reader == 2) & (replay.given <= 1) & held) {
        return Err(Refusal::State);
    }
    check_room(sound, out)
}

// The replay of version 2 before the first record.
#[unsafe(no_mangle)]
pub extern "C" fn cableowl_replay_v2() -> CableowlReplay
    ensures { result ≡ blank_replay_v2 }
{
    blank(2)
}

// Reads and plays the next record of a trace of version 2; returns what it did and the replay after it. The steps are
// those of cableowl_replay_step, which says why they are written twice.
#[unsafe(no_mangle)]
pub extern "C" fn cableowl_replay_step_v2(
    replay: CableowlReplay,
    bytes: &[u8],
    ended: u32,
    sound: &mut [f32],
    given: &[f32],
    sounds: u32,
    out: &mut [f32],
) -> CableowlReplayed
    ensures { record { answer = result; sound = sound.new; samples = out.new }
        ≡ stepped_v2 replay bytes.now ended sound.old given.now sounds
        out.old }
{
    if let Err(refusal) = check(replay, sound.len(), out.len()) {
        return refused_call(replay, refusal);
    }
    if bytes.len() == 0 {
        return no_record(replay, ended);
    }
    match trace_sealed::read(bytes, 0) {
        Ok(read) => match check_given(replay, read, sounds, given.len()) {
            Ok(()) => play_record_v2(replay, read, bytes, sound, given, sounds, out),
            Err(refusal) => refused_call(replay, refusal),
        },
        Err(refusal) => refused_record(replay, ended, refusal),
    }
}
