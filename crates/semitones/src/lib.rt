// Semitones: the ratio of a pitch by a table of twelve numbers scaled by 2^48, and a rate times that ratio.
#![tactic(auto)]

ghost use Rattle.std.specs.Prelude.{◌≡◌, ◌≤◌};
ghost use Rattle.semitones.specs.Ratios.{Table, raised_by};
ghost use Rattle.semitones.specs.Ratios as Ratios;
ghost use Rattle.semitones.specs.Promises.{Promises};

const RATIOS: [u64; 12] = [
    281474976710656,
    298212349810582,
    315944978906475,
    334732044999537,
    354636248176424,
    375724016864965,
    398065729532860,
    421735949569274,
    446813674133219,
    473382597799226,
    501531391880210,
    531354000359732,
];

fn all() -> &'static [u64; 12]
    ensures { Table result.now }
{
    &RATIOS
}

// The ratio of the pitch this many steps above the lowest, -24. The dividend is below 2^53, so it is an f64 and its
// quotient is exact.
fn ratio(steps: u64) -> f64
    requires { steps ≤ 48 }
    ensures { result ≡ Ratios.ratio steps }
{
    let octaves = steps / 12;
    let scaled = all()[(steps % 12) as usize] << octaves;
    (scaled as f64) / 1125899906842624.0
}

// The rate times the pitch's ratio, rounded once. The pitch is in two's complement; outside -24 to 24 the result is
// NaN.
pub fn raised(rate: f64, pitch: u64) -> f64
    ensures { result ≡ raised_by rate pitch }
{
    let steps = pitch.wrapping_add(24);
    if steps <= 48 {
        rate * ratio(steps)
    } else {
        f64::NAN
    }
}

// An empty function whose contract collects the theorems, so that the checker must prove them.
pub fn promised()
    ensures { Promises }
{}
