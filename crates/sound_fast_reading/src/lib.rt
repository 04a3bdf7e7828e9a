// Readings along a track: what the loops of the fast path (straight and wrapping) share.
#![tactic(auto)]

ghost use Rattle.std.specs.Prelude.{◌≡◌, true, not, ◌+◌, ◌<◌, T, List, length, get_or, set, replicate, Float};
ghost use Rattle.std.specs.Float.{nan};
ghost use Rattle.std.specs.Float.Ieee.{is_nan, lt};
ghost use Rattle.numbers.specs.Words.{positive_zero, proper, magnitude, advance};
ghost use Rattle.numbers.specs.Lists.{all};
ghost use Rattle.sound_lanes.specs.Lanes.{slow};
ghost use Rattle.sound_fast_reading.specs.Moves.{Slow, Move, number, Same};
ghost use Rattle.sound_fast_reading.specs.Scans.{begun};

use frame::Frame;
use numbers::Stepped;
use sound_track::Track;

// A track, the position and fraction where the fast path begins, the time step, and the sound's sample rate. The loops
// take it beside the sound and the rates: a struct of the three with `Scannable` as its ghost field would save each
// loop that clause, and lengthen each other clause, which names the three.
#[derive(Clone, Copy)]
pub struct Way {
    pub track: Track,
    pub at: usize,
    pub fractional_position: f64,
    pub dt: f64,
    pub sample_rate: u32,
}

// The rates of the frames, in order.
pub trait Rates: Copy {
    ghost list: { Self → List Float };

    fn count(self) -> usize
        ensures { result ≡ length (list self) };

    fn rate(self, i: usize) -> f64
        requires { i < length (list self) }
        ensures { result ≡ get_or (list self) i nan };
}

// A rate for each frame.
impl Rates for &[f64] {
    ghost list = { λ s. s.now };

    fn count(self) -> usize {
        self.len()
    }

    fn rate(self, i: usize) -> f64 {
        self[i]
    }
}

// One rate for all frames.
#[derive(Clone, Copy)]
pub struct OneRate {
    pub rate: f64,
    pub frames: usize,
}

impl Rates for OneRate {
    ghost list = { λ s. replicate s.frames s.rate };

    fn count(self) -> usize {
        self.frames
    }

    fn rate(self, _i: usize) -> f64 {
        self.rate
    }
}

// The state of the fast path: position and fraction, the steps made, and the next frame.
#[derive(Clone, Copy)]
pub struct Reached {
    pub at: usize,
    pub fractional_position: f64,
    pub steps: usize,
    pub next: usize,
}

impl Way {
    // The start of a scan.
    pub fn begin(self) -> Reached
        ensures { result ≡ begun self }
    {
        Reached {
            at: self.at,
            fractional_position: self.fractional_position,
            steps: 0,
            next: 0,
        }
    }
}

// A rate without its sign. It is not NaN, so its bits need no test; numbers::magnitude has one, for any number.
fn magnitude_of(rate: f64) -> f64
    requires { T (not (is_nan rate)) }
    ensures { result ≡ magnitude rate }
{
    f64::from_bits(f64::to_bits(rate) & 0x7fff_ffff_ffff_ffff)
}

// The advance of one frame at a rate. Sample rate and time step are two parameters, as in `slow`: that a rate is slow
// is a clause, since it ties all three.
pub fn advance_of(sample_rate: u32, dt: f64, rate: f64) -> f64
    requires { T (slow sample_rate dt rate) }
    ensures { result ≡ advance sample_rate rate dt }
{
    let advance = (sample_rate as f64) * magnitude_of(rate) * dt;
    advance
}

// The steps that an advance makes from a fraction, and the new fraction.
pub fn stepped_by(fractional_position: f64, advance: f64) -> Stepped
    requires t { T (proper fractional_position) }
    requires slow { Slow advance }
    ensures { Move fractional_position advance result }
{
    numbers::advance_by(fractional_position, advance)
}

// The steps of one frame.
pub fn moved(sample_rate: u32, dt: f64, fractional_position: f64, rate: f64) -> Stepped
    requires t { T (proper fractional_position) }
    requires t_2 { T (lt positive_zero dt) }
    requires t_3 { T (slow sample_rate dt rate) }
    ensures { Move fractional_position (advance sample_rate rate dt) result }
{
    stepped_by(fractional_position, advance_of(sample_rate, dt, rate))
}

// Writes a frame's two samples at sample k of the output.
pub fn store(out: &mut [f32], k: usize, frame: Frame)
    requires { k + 1 < length out.old }
    ensures { out.new ≡ set (set out.old k frame.left) (k + 1) frame.right }
{
    out[k] = frame.left;
    out[k + 1] = frame.right;
}

// Equal bit for bit: 0 and -0 are equal numbers, and differ.
fn is_same_rate(a: f64, b: f64) -> bool
    requires t { T (number a) }
    requires t_2 { T (number b) }
    ensures { result ≡ true → a ≡ b }
{
    f64::to_bits(a) == f64::to_bits(b)
}

// Whether all rates have the same bits. The last one is compared first, since moving rates differ there.
pub fn is_steady(rate: &[f64]) -> bool
    requires { T (all number rate.now) }
    ensures { result ≡ true → Same rate.now }
{
    let (Some(first), Some(last)) = (rate.first(), rate.last()) else {
        return false;
    };
    if !is_same_rate(*first, *last) {
        return false;
    }
    let mut same = true;
    for r in rate {
        same = is_same_rate(*r, *first) & same;
    }
    same
}
