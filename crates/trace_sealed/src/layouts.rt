// The layouts of sealed records.
ghost use Rattle.std.specs.Prelude.{◌≡◌, ◌*◌, ◌≤◌, cond, eqb};
ghost use Rattle.trace_sealed.specs.Tables.{kind_number, field_rows};
ghost use Rattle.trace_sealed.specs.Records.{possible};
ghost use Rattle.trace_sealed.specs.Writes.{Named};

use byte_layout::Row;
use refusals::Refusal;
use trace_records::is_in_steps;
use trace_records::rows::{FLAG, HALF, LENGTH, MARK_1, MARK_2, WORD};

pub(crate) const HEAD: [Row; 4] = [
    MARK_1,
    MARK_2,
    Row {
        width: 1,
        guard: 0,
        low: 0,
        least: 4,
        most: 5,
        refusal: Refusal::Kind,
    },
    LENGTH,
];

const GIVEN: [Row; 17] = [
    HALF,
    Row { most: 6, ..FLAG },
    Row {
        guard: 1,
        low: 1,
        ..WORD
    },
    Row {
        guard: 1,
        low: 3,
        ..WORD
    },
    FLAG,
    WORD,
    Row { most: 6, ..FLAG },
    Row {
        guard: 6,
        low: 1,
        ..WORD
    },
    Row {
        guard: 6,
        low: 3,
        ..WORD
    },
    FLAG,
    WORD,
    FLAG,
    HALF,
    WORD,
    WORD,
    WORD,
    WORD,
];

const LANED: [Row; 5] = [
    Row {
        width: 2,
        guard: 0,
        low: 0,
        least: 1,
        most: 1024,
        refusal: Refusal::Record,
    },
    WORD,
    FLAG,
    Row { most: 2, ..FLAG },
    Row { most: 2, ..FLAG },
];

// A creation over a given sound, or a block with its lanes.
#[derive(Clone, Copy, Debug, PartialEq, Eq)]
pub(crate) enum Kind {
    Given,
    Laned,
}

impl TryFrom<u64> for Kind {
    type Error = Refusal;

    ghost try_from_gives = { Named };

    fn try_from(kind: u64) -> Result<Kind, Refusal> {
        match kind {
            4 => Ok(Kind::Given),
            5 => Ok(Kind::Laned),
            _ => Err(Refusal::Kind),
        }
    }
}

impl From<Kind> for u64 {
    ghost from_gives = { λ kind n. n ≡ kind_number kind };

    fn from(kind: Kind) -> u64 {
        match kind {
            Kind::Given => 4,
            Kind::Laned => 5,
        }
    }
}

impl Kind {
    // The rows of the fields.
    pub(crate) fn rows(self) -> &'static [Row]
        ensures { result.now ≡ field_rows (kind_number self) }
    {
        match self {
            Kind::Given => &GIVEN,
            Kind::Laned => &LANED,
        }
    }

    // Whether a payload can have n bytes.
    pub(crate) fn is_possible(self, n: u64) -> bool
        ensures { result ≡ possible (kind_number self) n }
    {
        match self {
            Kind::Given => is_in_steps(n, 65, 97, 8),
            Kind::Laned => is_in_steps(n, 41, 24593, 24),
        }
    }

    // The number of bytes of the lanes, with this first number.
    pub(crate) fn lane_bytes(self, first: u64) -> usize
        requires { first ≤ 4294967295 }
        ensures { result ≡ cond (eqb (kind_number self) 4) 0 (24 * first) }
    {
        match self {
            Kind::Given => 0,
            Kind::Laned => 24 * (first as usize),
        }
    }
}
