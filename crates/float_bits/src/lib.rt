// Hexadecimal digits, and floats from their bits and back. Every NaN is represented by one canonical bit pattern.
#![tactic(auto)]

ghost use Rattle.std.specs.Prelude.{◌≡◌};
ghost use Rattle.std.specs.Float.{binary32, binary64};
ghost use Rattle.float_bits.specs.Patterns.{digit, float_of, bits_of};

// The value of a hexadecimal digit in lower case.
pub fn digit_value(b: u8) -> u64
    ensures { result ≡ digit b }
{
    let v = u64::from(b);
    if v < 58 { v % 16 } else { (v + 9) % 16 }
}

// The float with these bits, for each type of float: no trait of std has a float's bits, so that a trait of our own
// would have the same two bodies.
pub fn f64_of(bits: u64) -> f64
    ensures { result ≡ float_of binary64 bits }
{
    if (bits & 0x7fff_ffff_ffff_ffff) > 0x7ff0_0000_0000_0000 {
        f64::NAN
    } else {
        f64::from_bits(bits)
    }
}

pub fn f32_of(bits: u32) -> f32
    ensures { result ≡ float_of binary32 bits }
{
    if (bits & 0x7fff_ffff) > 0x7f80_0000 {
        f32::NAN
    } else {
        f32::from_bits(bits)
    }
}

// The bits of a float, for each type as above.
pub fn bits_of_f64(x: f64) -> u64
    ensures { result ≡ bits_of binary64 0x7ff8_0000_0000_0000 x }
{
    if x.is_nan() {
        0x7ff8_0000_0000_0000
    } else {
        x.to_bits()
    }
}

pub fn bits_of_f32(x: f32) -> u32
    ensures { result ≡ bits_of binary32 0x7fc0_0000 x }
{
    if x.is_nan() { 0x7fc0_0000 } else { x.to_bits() }
}
