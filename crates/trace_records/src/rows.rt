// Rows that the layouts of docs/formats/TRACE.md share.
use byte_layout::Row;
use refusals::Refusal;

pub const MARK_1: Row = Row {
    width: 1,
    guard: 0,
    low: 0,
    least: 165,
    most: 165,
    refusal: Refusal::Mark,
};

pub const MARK_2: Row = Row {
    width: 1,
    guard: 0,
    low: 0,
    least: 29,
    most: 29,
    refusal: Refusal::Mark,
};

// The length of the payload.
pub const LENGTH: Row = Row {
    width: 2,
    guard: 0,
    low: 0,
    least: 0,
    most: 65535,
    refusal: Refusal::Record,
};

pub const FLAG: Row = Row {
    width: 1,
    guard: 0,
    low: 0,
    least: 0,
    most: 1,
    refusal: Refusal::Record,
};

// Four bytes that can be any number.
pub const HALF: Row = Row {
    width: 4,
    guard: 0,
    low: 0,
    least: 0,
    most: 4294967295,
    refusal: Refusal::Record,
};

// Eight bytes that can be any number.
pub const WORD: Row = Row {
    width: 8,
    guard: 0,
    low: 0,
    least: 0,
    most: 18446744073709551615,
    refusal: Refusal::Record,
};
