// Numbers from standard input, one per line, and tests of the next number.
ghost use Rattle.std.specs.Prelude.{◌≤◌};
ghost use Rattle.test_sound_list.specs.Counts.{Counts};

use std::io::Read;

// A line end if the input has ended.
fn next_byte(from: &mut impl Read) -> u8 {
    let mut byte = [b'\n'; 1];
    match from.read_exact(&mut byte) {
        Ok(()) => first(&byte),
        Err(_) => b'\n',
    }
}

fn first(byte: &[u8; 1]) -> u8 {
    byte[0]
}

// The next number, of at most 16 digits; 0 if the input has ended.
pub(crate) fn next(from: &mut impl Read) -> u64 {
    let mut value: u64 = 0;
    for _ in 0..16 {
        let byte = next_byte(from);
        if byte == b'\n' {
            return value;
        }
        value = (value << 4) | float_bits::digit_value(byte);
    }
    next_byte(from);
    value
}

pub(crate) fn least(count: usize, most: usize) -> usize
    ensures { result ≤ most }
{
    count.min(most)
}

pub(crate) fn index(from: &mut impl Read) -> usize {
    next(from) as usize
}

// A number of at most this limit.
pub(crate) fn count(from: &mut impl Read, most: usize) -> usize
    ensures { result ≤ most }
{
    least(index(from), most)
}

pub(crate) fn half(from: &mut impl Read) -> u32 {
    (next(from) % 0x1_0000_0000) as u32
}

pub(crate) fn yes(from: &mut impl Read) -> bool {
    next(from) == 1
}

// A float that the next number's bits spell.
pub(crate) trait Spelled: Copy {
    fn next(from: &mut impl Read) -> Self;
}

impl Spelled for f64 {
    fn next(from: &mut impl Read) -> f64 {
        float_bits::f64_of(next(from))
    }
}

impl Spelled for f32 {
    fn next(from: &mut impl Read) -> f32 {
        float_bits::f32_of(half(from))
    }
}

pub(crate) fn double(from: &mut impl Read) -> f64 {
    f64::next(from)
}

pub(crate) fn single(from: &mut impl Read) -> f32 {
    f32::next(from)
}

// Samples or amplitudes: a count, then that many numbers, written to the start of `to`.
pub(crate) fn floats<F: Spelled>(from: &mut impl Read, to: &mut [F]) -> usize
    ensures { Counts result to.new }
{
    let n = count(from, to.len());
    for i in 0..n {
        to[i] = F::next(from);
    }
    n
}

// Whether the next number is this one. Each of these reads its number, whatever came before it.
pub(crate) fn is(from: &mut impl Read, number: u64) -> bool {
    next(from) == number
}

pub(crate) fn is_yes(from: &mut impl Read, answer: bool) -> bool {
    is(from, u64::from(answer))
}

pub(crate) fn is_double(from: &mut impl Read, x: f64) -> bool {
    is(from, float_bits::bits_of_f64(x))
}

pub(crate) fn is_single(from: &mut impl Read, x: f32) -> bool {
    is(from, float_bits::bits_of_f32(x) as u64)
}
