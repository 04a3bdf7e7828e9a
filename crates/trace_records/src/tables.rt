// The layouts of docs/formats/TRACE.md.
ghost use Rattle.std.specs.Prelude.{◌≡◌, ◌<◌};
ghost use Rattle.trace_records.specs.Tables.{kind_number, head_rows, body};
ghost use Rattle.trace_records.specs.Records.{in_steps, possible};
ghost use Rattle.trace_records.specs.Writes.{Named};

use crate::rows::{FLAG, HALF, LENGTH, MARK_1, MARK_2, WORD};
use byte_layout::Row;
use refusals::Refusal;

pub(crate) const HEAD: [Row; 4] = [
    MARK_1,
    MARK_2,
    Row {
        width: 1,
        guard: 0,
        low: 0,
        least: 1,
        most: 3,
        refusal: Refusal::Kind,
    },
    LENGTH,
];

// A creation has at most this many frames.
const MOST_FRAMES: u64 = 64;

// A frame of a creation's sound: row 12 has the number of frames. Frame k is present if there are more than k.
const FRAME: Row = Row {
    guard: 12,
    low: 1,
    ..WORD
};

const CREATION: [Row; 77] = [
    HALF,
    Row { most: 6, ..FLAG },
    Row {
        guard: 1,
        low: 1,
        ..WORD
    },
    Row {
        guard: 1,
        low: 3,
        ..WORD
    },
    FLAG,
    WORD,
    Row { most: 6, ..FLAG },
    Row {
        guard: 6,
        low: 1,
        ..WORD
    },
    Row {
        guard: 6,
        low: 3,
        ..WORD
    },
    FLAG,
    WORD,
    FLAG,
    Row {
        most: MOST_FRAMES,
        ..FLAG
    },
    Row { low: 1, ..FRAME },
    Row { low: 2, ..FRAME },
    Row { low: 3, ..FRAME },
    Row { low: 4, ..FRAME },
    Row { low: 5, ..FRAME },
    Row { low: 6, ..FRAME },
    Row { low: 7, ..FRAME },
    Row { low: 8, ..FRAME },
    Row { low: 9, ..FRAME },
    Row { low: 10, ..FRAME },
    Row { low: 11, ..FRAME },
    Row { low: 12, ..FRAME },
    Row { low: 13, ..FRAME },
    Row { low: 14, ..FRAME },
    Row { low: 15, ..FRAME },
    Row { low: 16, ..FRAME },
    Row { low: 17, ..FRAME },
    Row { low: 18, ..FRAME },
    Row { low: 19, ..FRAME },
    Row { low: 20, ..FRAME },
    Row { low: 21, ..FRAME },
    Row { low: 22, ..FRAME },
    Row { low: 23, ..FRAME },
    Row { low: 24, ..FRAME },
    Row { low: 25, ..FRAME },
    Row { low: 26, ..FRAME },
    Row { low: 27, ..FRAME },
    Row { low: 28, ..FRAME },
    Row { low: 29, ..FRAME },
    Row { low: 30, ..FRAME },
    Row { low: 31, ..FRAME },
    Row { low: 32, ..FRAME },
    Row { low: 33, ..FRAME },
    Row { low: 34, ..FRAME },
    Row { low: 35, ..FRAME },
    Row { low: 36, ..FRAME },
    Row { low: 37, ..FRAME },
    Row { low: 38, ..FRAME },
    Row { low: 39, ..FRAME },
    Row { low: 40, ..FRAME },
    Row { low: 41, ..FRAME },
    Row { low: 42, ..FRAME },
    Row { low: 43, ..FRAME },
    Row { low: 44, ..FRAME },
    Row { low: 45, ..FRAME },
    Row { low: 46, ..FRAME },
    Row { low: 47, ..FRAME },
    Row { low: 48, ..FRAME },
    Row { low: 49, ..FRAME },
    Row { low: 50, ..FRAME },
    Row { low: 51, ..FRAME },
    Row { low: 52, ..FRAME },
    Row { low: 53, ..FRAME },
    Row { low: 54, ..FRAME },
    Row { low: 55, ..FRAME },
    Row { low: 56, ..FRAME },
    Row { low: 57, ..FRAME },
    Row { low: 58, ..FRAME },
    Row { low: 59, ..FRAME },
    Row { low: 60, ..FRAME },
    Row { low: 61, ..FRAME },
    Row { low: 62, ..FRAME },
    Row { low: 63, ..FRAME },
    Row { low: 64, ..FRAME },
];

const COMMANDS: [Row; 12] = [
    FLAG,
    Row {
        guard: 0,
        low: 1,
        ..WORD
    },
    Row { most: 7, ..FLAG },
    Row {
        guard: 2,
        low: 2,
        ..WORD
    },
    Row {
        guard: 2,
        low: 4,
        ..WORD
    },
    FLAG,
    Row { most: 2, ..FLAG },
    FLAG,
    FLAG,
    Row {
        guard: 8,
        low: 1,
        ..WORD
    },
    FLAG,
    Row {
        guard: 10,
        low: 1,
        ..WORD
    },
];

const BLOCK: [Row; 10] = [
    Row {
        width: 2,
        most: 1024,
        ..FLAG
    },
    HALF,
    HALF,
    HALF,
    HALF,
    WORD,
    WORD,
    FLAG,
    Row { most: 2, ..FLAG },
    Row { most: 2, ..FLAG },
];

#[derive(Clone, Copy, Debug, PartialEq, Eq)]
pub(crate) enum Kind {
    Creation,
    Commands,
    Block,
}

impl TryFrom<u64> for Kind {
    type Error = Refusal;

    ghost try_from_gives = { Named };

    fn try_from(kind: u64) -> Result<Kind, Refusal> {
        match kind {
            1 => Ok(Kind::Creation),
            2 => Ok(Kind::Commands),
            3 => Ok(Kind::Block),
            _ => Err(Refusal::Kind),
        }
    }
}

impl Kind {
    // The rows of the payload.
    pub(crate) fn rows(self) -> &'static [Row]
        ensures { result.now ≡ body (kind_number self) }
    {
        match self {
            Kind::Creation => &CREATION,
            Kind::Commands => &COMMANDS,
            Kind::Block => &BLOCK,
        }
    }

    // Whether a payload can have n bytes.
    pub(crate) fn is_possible(self, n: u64) -> bool
        ensures { result ≡ possible (kind_number self) n }
    {
        match self {
            Kind::Creation => is_in_steps(n, 26, 570, 8),
            Kind::Commands => is_in_steps(n, 7, 47, 8),
            Kind::Block => is_in_steps(n, 37, 37, 8),
        }
    }
}

// Whether a number is from `low` to `high`, in steps.
pub fn is_in_steps(n: u64, low: u64, high: u64, by: u64) -> bool
    requires { 0 < by }
    ensures { result ≡ in_steps n low high by }
{
    if n < low {
        return false;
    }
    if high < n {
        return false;
    }
    (n - low) % by == 0
}
