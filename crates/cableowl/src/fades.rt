// The C entries of levels and fades: crate decibels over plain numbers and a lane.
ghost use Rattle.std.specs.Prelude.{◌≡◌, length};
ghost use Rattle.decibels.specs.Levels.{level_refusal, amplitude_or};
ghost use Rattle.decibels.specs.Ramps.{refusal, faded};

use crate::{number_of, value_or};

#[unsafe(no_mangle)]
pub extern "C" fn cableowl_amplitude(level: u32, to: &mut f32) -> u32
    ensures { (result ≡ level_refusal level) × (to.new ≡ amplitude_or level to.old) }
{
    let (amplitude, refusal) = value_or(*to, decibels::as_amplitude(level));
    *to = amplitude;
    refusal
}

#[unsafe(no_mangle)]
pub extern "C" fn cableowl_fade_ramp(start: u32, end: u32, count: u32, lane: &mut [f32]) -> u32
    ensures { (result ≡ refusal start end count (length lane.old))
        × (lane.new ≡ faded start end count lane.old) }
{
    number_of(decibels::fade_ramp(start, end, count, lane))
}
