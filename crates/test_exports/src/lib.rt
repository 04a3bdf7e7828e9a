// The leaves as C functions, for the host's tests, which compare them with kira's code and with Rust's own. Each
// accepts any input; if a leaf requires more, the contract states the result outside.
#![tactic(auto)]

ghost use Rattle.std.specs.Prelude.{◌≡◌, cond};
ghost use Rattle.numbers.specs.Words.{positive_zero, finite, finite_clear, is_positive_zero, negative, proper};
ghost use Rattle.numbers.specs.Words.{narrowed};
ghost use Rattle.numbers.specs.Words as Words;
ghost use Rattle.numbers.specs.Frames.{rounded, cut_off};
ghost use Rattle.test_exports.specs.Answers.{bit, yes, moved};

mod moves;
mod places;
mod states;
mod window;

#[repr(C)]
#[derive(Clone, Copy)]
pub struct Moved {
    pub steps: u64,
    pub rest: f64,
}

// 0 is no.
fn is_yes(n: u32) -> bool
    ensures { result ≡ yes n }
{
    n > 0
}

// Positive zero if x is not a proper fraction.
#[unsafe(no_mangle)]
pub extern "C" fn cableowl_test_narrow(x: f64) -> f32
    ensures { result ≡ cond (proper x) (narrowed x) positive_zero }
{
    if numbers::is_proper(x) {
        numbers::narrow(x)
    } else {
        0.0
    }
}

// The advance without its sign. No steps and positive zero if the fraction is not proper or the advance is above 256.
#[unsafe(no_mangle)]
pub extern "C" fn cableowl_test_advance_by(fraction: f64, advance: f64) -> Moved
    ensures { result ≡ moved fraction (Words.magnitude advance) }
{
    let a = numbers::magnitude(advance);
    if numbers::is_proper(fraction) && a <= 256.0 {
        let s = numbers::advance_by(fraction, a);
        Moved {
            steps: s.steps as u64,
            rest: s.fraction,
        }
    } else {
        Moved {
            steps: 0,
            rest: 0.0,
        }
    }
}

#[unsafe(no_mangle)]
pub extern "C" fn cableowl_test_round_half_away(x: f64) -> u64
    ensures { result ≡ rounded x }
{
    numbers::round_half_away(x) as u64
}

#[unsafe(no_mangle)]
pub extern "C" fn cableowl_test_cut(x: f64) -> u64
    ensures { result ≡ cut_off x }
{
    numbers::cut(x) as u64
}

#[unsafe(no_mangle)]
pub extern "C" fn cableowl_test_magnitude(x: f64) -> f64
    ensures { result ≡ Words.magnitude x }
{
    numbers::magnitude(x)
}

#[unsafe(no_mangle)]
pub extern "C" fn cableowl_test_is_finite(x: f64) -> u32
    ensures { result ≡ bit (finite x) }
{
    u32::from(numbers::is_finite(x))
}

#[unsafe(no_mangle)]
pub extern "C" fn cableowl_test_is_negative(x: f64) -> u32
    ensures { result ≡ bit (negative x) }
{
    u32::from(numbers::is_negative(x))
}

#[unsafe(no_mangle)]
pub extern "C" fn cableowl_test_is_proper(x: f64) -> u32
    ensures { result ≡ bit (proper x) }
{
    u32::from(numbers::is_proper(x))
}

#[unsafe(no_mangle)]
pub extern "C" fn cableowl_test_is_finite_clear(x: f32) -> u32
    ensures { result ≡ bit (finite_clear x) }
{
    u32::from(numbers::is_finite_clear(x))
}

#[unsafe(no_mangle)]
pub extern "C" fn cableowl_test_is_positive_zero(x: f32) -> u32
    ensures { result ≡ bit (is_positive_zero x) }
{
    u32::from(numbers::is_positive_zero(x))
}
