// Float arithmetic of the player: fractions of a frame, seconds to frames, narrowing an f64, and tests on floats.
#![tactic(auto)]

ghost use Rattle.std.specs.Prelude.{◌≡◌, false, T, pos};
ghost use Rattle.std.specs.Float.Ieee as Ieee;
ghost use Rattle.std.specs.Float.{fin, binary64};
ghost use Rattle.numbers.specs.Words.{finite, finite_clear, is_positive_zero, negative, proper, narrowed, stepped};
ghost use Rattle.numbers.specs.Words as Words;
ghost use Rattle.numbers.specs.Frames.{rounded, cut_off};

// The nearest f32. x + c lies in c's binade, where the spacing of f64 is that of f32 at x, so the sum rounds x as an
// f32 does; the difference is exact. That a fraction is proper is a clause here and above, and no type: the state
// that C passes holds any f64, and `is_well_formed` checks it.
pub fn narrow(x: f64) -> f32
    requires { T (proper x) }
    ensures { result ≡ narrowed x }
{
    let bits: u64 = f64::to_bits(x);
    let field: u64 = bits >> 52;
    let at: u64 = if field < 897 { 897 } else { field };
    let c = f64::from_bits((at + 29) << 52);
    ((x + c) - c) as f32
}

#[derive(Clone, Copy, Debug)]
pub struct Stepped {
    pub steps: usize,
    pub fraction: f64,
}

// Adds the advance to the fraction, then subtracts 1 while the sum is at least 1, one step each time. There is no index
// to go over, and the number of steps shows only at the end, so a `for` would be no plainer.
pub fn advance_by(fraction: f64, advance: f64) -> Stepped
    requires fraction_proper { T (proper fraction) }
    requires advance_clear { T (finite_clear advance) }
    requires advance_most { T (Ieee.le advance (fin false 1 (pos 8))) }
    ensures { result ≡ stepped (Ieee.add binary64 fraction advance) }
{
    let mut rest = fraction + advance;
    let mut steps: usize = 0;
    while rest >= 1.0 {
        rest -= 1.0;
        steps += 1;
    }
    Stepped {
        steps,
        fraction: rest,
    }
}

// The nearest whole number, a half away from zero; 0 for negative x and NaN, 2^32 for 2^32 and above.
pub fn round_half_away(x: f64) -> usize
    ensures { result ≡ rounded x }
{
    std::num::saturating_f64_to_u64(x.round()).min(4294967296) as usize
}

// x without its fractional part, in the same range.
pub fn cut(x: f64) -> usize
    ensures { result ≡ cut_off x }
{
    std::num::saturating_f64_to_u64(x).min(4294967296) as usize
}

// x without its sign. The bits of a NaN are not defined, so a NaN is returned as it is.
// std's `abs` does the same in 11 instructions; this is 8, once for each frame of a lane that is checked.
pub fn magnitude(x: f64) -> f64
    ensures { result ≡ Words.magnitude x }
{
    if x == x {
        f64::from_bits(f64::to_bits(x) & 0x7fff_ffff_ffff_ffff)
    } else {
        x
    }
}

pub fn is_finite(x: f64) -> bool
    ensures { result ≡ finite x }
{
    x.is_finite()
}

// Whether the sign bit is set: minus zero is negative. The bits of a NaN are not defined, so it is not negative.
pub fn is_negative(x: f64) -> bool
    ensures { result ≡ negative x }
{
    !x.is_nan() && x.is_sign_negative()
}

// A proper fraction: at least 0, below 1, sign bit clear.
pub fn is_proper(x: f64) -> bool
    ensures { result ≡ proper x }
{
    x < 1.0 && x.is_sign_positive()
}

// Finite with the sign bit clear, so minus zero is not.
pub fn is_finite_clear(x: f32) -> bool
    ensures { result ≡ finite_clear x }
{
    x < f32::INFINITY && x.is_sign_positive()
}

// Exactly positive zero. (Minus zero compares equal to it, so the bits decide.)
pub fn is_positive_zero(x: f32) -> bool
    ensures { result ≡ is_positive_zero x }
{
    x == 0.0 && x.is_sign_positive()
}
