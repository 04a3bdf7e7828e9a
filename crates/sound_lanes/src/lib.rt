// The five lanes of a block, and their checks. No pass returns early, so that its loop can be vectorised.
#![tactic(auto)]

ghost use Rattle.std.specs.Prelude.{◌≡◌, ◌+◌, T};
ghost use Rattle.numbers.specs.Words.{finite, finite_clear};
ghost use Rattle.numbers.specs.Lists.{all};
ghost use Rattle.refusals.specs.Numbers.{number_of};
ghost use Rattle.sound_lanes.specs.Lanes.{
  lanes_of,
  gains_at,
  scaled,
  Covers,
  sized,
  is_time_step,
  slow,
  judged,
  four_finite_clear,
  low,
};

use frame::Frame;
use refusals::Refusal;

// The five lanes of a block as they are passed.
#[derive(Clone, Copy, Debug)]
pub struct Lanes<'a> {
    pub fade: &'a [f32],
    pub volume: &'a [f32],
    pub left: &'a [f32],
    pub right: &'a [f32],
    pub rate: &'a [f64],
}

// The four numbers that a frame's reading is multiplied by.
#[derive(Clone, Copy, Debug, PartialEq)]
pub struct Gains {
    pub fade: f32,
    pub volume: f32,
    pub left: f32,
    pub right: f32,
}

impl Gains {
    // A reading times fade, then volume, then each channel's gain.
    pub fn scale(self, read: Frame) -> Frame
        ensures { result ≡ scaled read.left read.right self }
    {
        Frame {
            left: read.left * self.fade * self.volume * self.left,
            right: read.right * self.fade * self.volume * self.right,
        }
    }
}

impl Lanes<'_> {
    // The gains of frame i.
    pub fn gains(self, i: usize) -> Gains
        requires { Covers (i + 1) (lanes_of self) }
        ensures { result ≡ gains_at self.entry.fade.now self.entry.volume.now self.entry.left.now
            self.entry.right.now i }
    {
        Gains {
            fade: self.fade[i],
            volume: self.volume[i],
            left: self.left[i],
            right: self.right[i],
        }
    }

    // Refusal 9, except for the output's length.
    pub fn are_sized(self) -> bool
        ensures { result ≡ sized (lanes_of self.entry) }
    {
        let n = self.rate.len();
        (n <= 4096)
            & (self.fade.len() == n)
            & (self.volume.len() == n)
            & (self.left.len() == n)
            & (self.right.len() == n)
    }

    // Whether the amplitudes and gains are finite with their sign bit clear. That the lanes have one length is a clause
    // and no invariant of `Lanes`: C may pass lanes of any lengths, and `are_sized` checks them. Not inlined: inside
    // the block the loop has too few registers, and takes 7 instructions a frame more.
    #[inline(never)]
    fn four_finite_clear(self) -> bool
        requires { T (sized (lanes_of self)) }
        ensures { result ≡ four_finite_clear self.entry.fade.now self.entry.volume.now self.entry.left.now
            self.entry.right.now }
    {
        let Lanes {
            fade,
            volume,
            left,
            right,
            ..
        } = self;
        let mut tops: u32 = 0;
        // One pass reads four lanes, so it has an index: a zip of four slices nests three pairs.
        for i in 0..fade.len() {
            tops = tops | top(fade[i]) | top(volume[i]) | top(left[i]) | top(right[i]);
        }
        tops < 0x8000_0000
    }

    // Refusals 11 and 12. A slow rate is finite, so the pass for finite rates only distinguishes 11 from 12.
    pub fn judge(self, sample_rate: u32, dt: f64) -> Result<(), Refusal>
        requires t { T (sized (lanes_of self)) }
        requires t_2 { T (is_time_step dt) }
        ensures { number_of result ≡ judged sample_rate dt (lanes_of self.entry) }
    {
        if !self.four_finite_clear() {
            return Err(Refusal::Lane);
        }
        if all_slow(sample_rate, dt, self.rate) {
            return Ok(());
        }
        if all_finite(self.rate) {
            Err(Refusal::Advance)
        } else {
            Err(Refusal::Lane)
        }
    }
}

// Refusal 10.
pub fn is_time_step(dt: f64) -> bool
    ensures { result ≡ is_time_step dt }
{
    numbers::is_finite(dt) & (dt > 0.0)
}

// The bits of x if it is at most the largest number, otherwise only the top bit: that bit is set exactly if x is
// refused.
fn top(x: f32) -> u32
    ensures { low result ≡ finite_clear x }
{
    let largest: f32 = f32::from_bits(0x7f7f_ffff);
    if x <= largest {
        f32::to_bits(x)
    } else {
        0x8000_0000
    }
}

// Computes the advance as the block does, so that in no rounding mode a rate passes here and is too fast there.
fn all_slow(sample_rate: u32, dt: f64, rate: &[f64]) -> bool
    ensures { result ≡ all (slow sample_rate dt) rate.now }
{
    let hz = sample_rate as f64;
    let mut ok = true;
    for r in rate {
        let advance = hz * numbers::magnitude(*r) * dt;
        ok = (advance <= 256.0) & ok;
    }
    ok
}

fn all_finite(rate: &[f64]) -> bool
    ensures { result ≡ all finite rate.now }
{
    rate.iter().fold(true, |ok, r| numbers::is_finite(*r) & ok)
}
