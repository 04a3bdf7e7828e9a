// The checks of a block.
ghost use Rattle.std.specs.Prelude.{◌≡◌};
ghost use Rattle.refusals.specs.Numbers.{number_of};
ghost use Rattle.sound_lanes.specs.Lanes.{sized};
ghost use Rattle.sound_fast_path.specs.BlockLanes.{block_lanes};
ghost use Rattle.static_sound.specs.Entries.{refused_block};

use refusals::Refusal;
use sound_fast_path::BlockLanes;
use sound_state::StaticSound;

// Refusal 9, except for the output's length.
fn are_sized(lanes: BlockLanes<'_>) -> bool
    ensures { result ≡ sized (block_lanes lanes.entry) }
{
    match lanes {
        BlockLanes::Each(lanes) => lanes.are_sized(),
        BlockLanes::Held(_, frames) => frames <= 4096,
    }
}

// The lowest refusal that applies to a block. If there are frames, the numbers of held lanes are checked as one
// frame's.
pub(crate) fn check(
    voice: StaticSound,
    dt: f64,
    samples: usize,
    lanes: BlockLanes<'_>,
    placed: bool,
) -> Result<(), Refusal>
    ensures { number_of result ≡ refused_block samples voice dt (block_lanes lanes.entry) placed }
{
    if !voice.is_well_formed(samples) {
        return Err(Refusal::State);
    }
    if !are_sized(lanes) {
        return Err(Refusal::Block);
    }
    if !placed {
        return Err(Refusal::Block);
    }
    if !sound_lanes::is_time_step(dt) {
        return Err(Refusal::TimeStep);
    }
    match lanes {
        BlockLanes::Each(lanes) => lanes.judge(voice.setup.sample_rate, dt),
        BlockLanes::Held(held, frames) => {
            if frames == 0 {
                return Ok(());
            }
            let one = held.lanes();
            one.judge(voice.setup.sample_rate, dt)
        }
    }
}
