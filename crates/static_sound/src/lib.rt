// A block into an output of its own or into a mix: checks the whole input, then plays it (kira's StaticSound::process).
// Voice, sound, time step and signals are parameters side by side: a struct of them would be built for one call and
// taken apart in it.
#![tactic(auto)]

ghost use Rattle.std.specs.Prelude.{◌≡◌, ◌+◌, ◌*◌, ◌/◌, ◌%◌, ◌&&◌, leb, eqb};
ghost use Rattle.refusals.specs.Numbers.{number_of};
ghost use Rattle.sound_lanes.specs.Lanes.{lanes_of};
ghost use Rattle.sound_fast_path.specs.BlockLanes.{block_lanes};
ghost use Rattle.static_sound.specs.Entries.{
  processed,
  processed_into,
  processed_held,
  processed_held_into,
  block_answer,
};

mod checks;
mod stretches;

use checks::check;
use refusals::Refusal;
use sound_block::{Signals, block};
use sound_fast_path::BlockLanes;
use sound_held::Held;
use sound_lanes::Lanes;
use sound_slow_path::Processed;
use sound_state::StaticSound;
pub use stretches::stretch;

// Whether an output of this many samples has this many frames.
fn holds(samples: usize, frames: usize) -> bool
    ensures { result ≡ eqb samples (2 * frames) }
{
    samples % 2 == 0 && samples / 2 == frames
}

// Whether a mix of this many samples has whole frames, and enough of them from the given frame on.
fn has_room(from: usize, frames: usize, samples: usize) -> bool
    ensures { result ≡ (eqb (samples % 2) 0 && leb (from + frames) (samples / 2)) }
{
    samples % 2 == 0 && from <= samples / 2 && frames <= samples / 2 - from
}

// The lanes of a block: constant lanes are held lanes. One call of `process_at` plays both, since each call of it takes
// stack.
fn held_if_constant(lanes: Lanes<'_>) -> BlockLanes<'_>
    ensures { block_lanes result ≡ lanes_of lanes.entry }
{
    if sound_constant::are_constant(lanes) {
        return BlockLanes::Held(sound_constant::first_of(lanes), lanes.rate.len());
    }
    BlockLanes::Each(lanes)
}

// The block, from the given frame of a mix on.
fn process_at(
    voice: StaticSound,
    sound: &[f32],
    lanes: BlockLanes<'_>,
    dt: f64,
    signals: Signals,
    mix: &mut [f32],
    from: usize,
) -> Result<Processed, Refusal>
    ensures { record { answer = block_answer voice result; samples = mix.new }
        ≡ processed_into sound.now voice dt (block_lanes lanes.entry) signals mix.old from }
{
    let frames = lanes.frames();
    let placed = has_room(from, frames, mix.len());
    check(voice, dt, sound.len(), lanes, placed)?;
    let a = 2 * from;
    let e = a + 2 * frames;
    Ok(block(voice, dt, signals, sound, lanes, &mut mix[a..e]))
}

// A block into an output of its own: a block into a mix, from frame 0 on.
pub fn process(
    voice: StaticSound,
    sound: &[f32],
    lanes: Lanes<'_>,
    dt: f64,
    signals: Signals,
    out: &mut [f32],
) -> Result<Processed, Refusal>
    ensures { record { answer = block_answer voice result; samples = out.new }
        ≡ processed sound.now voice dt (lanes_of lanes.entry) signals out.old }
{
    // No frame from the output's end on has room: a block that the output does not hold is refused.
    let from = if holds(out.len(), lanes.rate.len()) {
        0
    } else {
        out.len()
    };
    process_into(voice, sound, lanes, dt, signals, out, from)
}

// A block into the middle of a longer mix, from the given frame on; no other sample changes.
pub fn process_into(
    voice: StaticSound,
    sound: &[f32],
    lanes: Lanes<'_>,
    dt: f64,
    signals: Signals,
    mix: &mut [f32],
    from: usize,
) -> Result<Processed, Refusal>
    ensures { record { answer = block_answer voice result; samples = mix.new }
        ≡ processed_into sound.now voice dt (lanes_of lanes.entry) signals mix.old from }
{
    process_at(
        voice,
        sound,
        held_if_constant(lanes),
        dt,
        signals,
        mix,
        from,
    )
}

// A block of held lanes into an output of its own: as many frames as fit, from frame 0 on.
pub fn process_held(
    voice: StaticSound,
    sound: &[f32],
    held: Held,
    dt: f64,
    signals: Signals,
    out: &mut [f32],
) -> Result<Processed, Refusal>
    ensures { record { answer = block_answer voice result; samples = out.new }
        ≡ processed_held sound.now voice dt held signals out.old }
{
    let frames = out.len() / 2;
    process_held_into(voice, sound, held, dt, signals, out, 0, frames)
}

// A block of this many frames of held lanes into the middle of a longer mix, from the given frame on; no other sample
// changes.
pub fn process_held_into(
    voice: StaticSound,
    sound: &[f32],
    held: Held,
    dt: f64,
    signals: Signals,
    mix: &mut [f32],
    from: usize,
    frames: usize,
) -> Result<Processed, Refusal>
    ensures { record { answer = block_answer voice result; samples = mix.new }
        ≡ processed_held_into sound.now voice dt held signals mix.old from frames }
{
    process_at(
        voice,
        sound,
        BlockLanes::Held(held, frames),
        dt,
        signals,
        mix,
        from,
    )
}
