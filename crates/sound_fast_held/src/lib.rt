// The fast path along a track to its end: four frames per iteration where no step wraps, then one by one, then across
// the loop's edge, until no frame is played. The rates vary or are one.
#![tactic(auto)]

ghost use Rattle.std.specs.Prelude.{◌≡◌, replicate};
ghost use Rattle.sound_fast_reading.specs.Scans.{begun, Scannable, Scanned};

use sound_fast_reading::{OneRate, Rates, Reached, Way};
use sound_fast_straight::Straight;
use sound_track::{Backward, Forward};

// The straight loops, then the loop that wraps.
fn stretch<D: Straight, R: Rates>(
    way: Way,
    from: Reached,
    sound: &[f32],
    rates: R,
    out: &mut [f32],
) -> Reached
    requires scannable { Scannable sound.now way (R.list rates) }
    requires scanned { Scanned sound.now way (R.list rates) from out.old }
    requires backwards_value { way.track.backwards ≡ D.backwards }
    ensures { Scanned sound.now way (R.list rates) result out.new }
{
    let fours = sound_fast_straight::fours::<D, R>(way, from, sound, rates, out);
    let ones = sound_fast_straight::ones::<D, R>(way, fours, sound, rates, out);
    sound_fast_wrapping::wrapping::<D, R>(way, ones, sound, rates, out)
}

// One stretch after the other, while each plays frames and some are left: a while loop, since no count is known.
fn stretches<D: Straight, R: Rates>(way: Way, sound: &[f32], rates: R, out: &mut [f32]) -> Reached
    requires scannable { Scannable sound.now way (R.list rates) }
    requires scanned { Scanned sound.now way (R.list rates) (begun way) out.old }
    requires backwards_value { way.track.backwards ≡ D.backwards }
    ensures { Scanned sound.now way (R.list rates) result out.new }
{
    let mut r = way.begin();
    let mut s = stretch::<D, R>(way, r, sound, rates, out);
    while (r.next < s.next) & (s.next < rates.count()) {
        r = s;
        s = stretch::<D, R>(way, r, sound, rates, out);
    }
    s
}

// To the track's end.
pub fn scan<R: Rates>(way: Way, sound: &[f32], rates: R, out: &mut [f32]) -> Reached
    requires scannable { Scannable sound.now way (R.list rates) }
    requires scanned { Scanned sound.now way (R.list rates) (begun way) out.old }
    ensures { Scanned sound.now way (R.list rates) result out.new }
{
    if way.track.backwards {
        stretches::<Backward, R>(way, sound, rates, out)
    } else {
        stretches::<Forward, R>(way, sound, rates, out)
    }
}

// The same if every frame has the same rate.
pub fn scan_held(way: Way, sound: &[f32], rate: f64, frames: usize, out: &mut [f32]) -> Reached
    requires scannable { Scannable sound.now way (replicate frames rate) }
    requires scanned { Scanned sound.now way (replicate frames rate) (begun way) out.old }
    ensures { Scanned sound.now way (replicate frames rate) result out.new }
{
    scan(way, sound, OneRate { rate, frames }, out)
}
