// Reads a fixed list of number cases from standard input, compares each with Rust's result, and counts the
// differences. A line is a kind, the bits of x, a sample rate and the expected answer, in hexadecimal: `r
// 4004000000000000 0000ac44 000000000001aea4`.
#![tactic(auto)]

ghost use Rattle.std.specs.Prelude.{◌+◌, ◌≤◌, ◌<◌, ◌^◌, ◌≡◌};
ghost use Rattle.test_numbers_list.specs.Lines.{digit, number, narrows_to, right, agrees};
ghost use Rattle.test_numbers_list.specs.Lines as Lines;

use std::io;
use std::io::{BufReader, Read};

// The largest number of lines of a list.
const MOST: u64 = 1_000_000;

// The value of a hexadecimal digit in lower case. float_bits has the same function; this one stays for the edit
// a_counts_nine, which changes it here.
fn digit_value(b: u8) -> u64
    ensures { result ≡ digit b }
{
    let v = b as u64;
    if v < 58 { v % 16 } else { (v + 9) % 16 }
}

// The number that `count` digits from `from` on spell.
fn field(line: &[u8; 45], from: usize, count: usize) -> u64
    requires count_bound { from + count ≤ 45 }
    requires count_bound_2 { count ≤ 16 }
    ensures value { result ≡ number line.now from count }
    ensures upper_bound { result < 16 ^ count }
{
    let mut value: u64 = 0;
    for i in 0..count {
        value = value * 16 + digit_value(line[from + i]);
    }
    value
}

// Only a proper fraction is a case for `narrow`.
fn narrows_to(x: f64, expected: u64) -> bool
    ensures { result ≡ narrows_to x expected }
{
    if numbers::is_proper(x) {
        f32::to_bits(numbers::narrow(x)) as u64 == expected
    } else {
        false
    }
}

// A NaN has no bits to compare.
fn measures(x: f64, expected: u64) -> bool
    ensures { result ≡ Lines.measures x expected }
{
    let y = numbers::magnitude(x);
    if y == y {
        f64::to_bits(y) == expected
    } else {
        false
    }
}

// Whether the function that `kind` names returns the expected answer. The kind is the line's letter: a list may have
// any, and an unknown one counts as a difference.
fn is_right(kind: u8, x: f64, rate: u32, expected: u64) -> bool
    ensures { result ≡ right kind x rate expected }
{
    match kind {
        b'n' => narrows_to(x, expected),
        b'r' => numbers::round_half_away(x * (rate as f64)) as u64 == expected,
        b'c' => numbers::cut(x * (rate as f64)) as u64 == expected,
        b'm' => measures(x, expected),
        _ => false,
    }
}

// Whether a line's result is right. A NaN is not a case.
fn judge(line: &[u8; 45]) -> bool
    ensures { result ≡ agrees line.now }
{
    let bits = field(line, 2, 16);
    if (bits & 0x7fff_ffff_ffff_ffff) > 0x7ff0_0000_0000_0000 {
        return false;
    }
    is_right(
        line[0],
        f64::from_bits(bits),
        field(line, 19, 8) as u32,
        field(line, 28, 16),
    )
}

#[derive(Clone, Copy)]
enum Line {
    End,
    Agrees,
    Differs,
}

// Reads until the line is full or the input ends: how many bytes.
// By hand, as each read gives as many bytes as it has: no range or iterator counts that, and `read_exact` hides how
// many bytes of a cut line came.
fn read_full(from: &mut impl Read, line: &mut [u8; 45]) -> io::Result<usize> {
    let mut n: usize = 0;
    while n < 45 {
        let more = from.read(&mut line[n..])?;
        if more == 0 {
            return Ok(n);
        }
        n += more;
    }
    Ok(n)
}

// Reads one line. A line that is cut short counts as a difference.
fn next_line(from: &mut impl Read) -> io::Result<Line> {
    let mut line = [0u8; 45];
    let n = read_full(from, &mut line)?;
    if n == 0 {
        return Ok(Line::End);
    }
    if n == 45 && judge(&line) {
        return Ok(Line::Agrees);
    }
    Ok(Line::Differs)
}

#[derive(Clone, Copy)]
struct Tally {
    cases: u64,
    differ: u64,
}

fn count_all(from: &mut impl Read) -> io::Result<Tally> {
    let mut differ: u64 = 0;
    for cases in 0..MOST {
        match next_line(from)? {
            Line::End => return Ok(Tally { cases, differ }),
            Line::Agrees => (),
            Line::Differs => differ += 1,
        }
    }
    Ok(Tally {
        cases: MOST,
        differ,
    })
}

fn main(rt: HostRuntime) -> io::Result<()> {
    let mut from = BufReader::new(rt.alloc(), rt.reader())?;
    let t = count_all(&mut from)?;
    println!(rt; "{} cases, {} differ", t.cases, t.differ)
}
