// The layouts of docs/formats/SETTINGS.md. Every row is present.

use byte_layout::Row;
use refusals::Refusal;

const MARK_1: Row = Row {
    width: 1,
    guard: 0,
    low: 0,
    least: 94,
    most: 94,
    refusal: Refusal::Mark,
};

const MARK_2: Row = Row {
    width: 1,
    guard: 0,
    low: 0,
    least: 113,
    most: 113,
    refusal: Refusal::Mark,
};

const VERSION_1: Row = Row {
    width: 1,
    guard: 0,
    low: 0,
    least: 1,
    most: 1,
    refusal: Refusal::Version,
};

const VERSION_2: Row = Row {
    width: 1,
    guard: 0,
    low: 0,
    least: 2,
    most: 2,
    refusal: Refusal::Version,
};

const LENGTH_1: Row = Row {
    width: 1,
    guard: 0,
    low: 0,
    least: 21,
    most: 21,
    refusal: Refusal::SavedField,
};

const LENGTH_2: Row = Row {
    width: 1,
    guard: 0,
    low: 0,
    least: 22,
    most: 22,
    refusal: Refusal::SavedField,
};

const FRAMES: Row = Row {
    width: 4,
    guard: 0,
    low: 0,
    least: 0,
    most: 4294967295,
    refusal: Refusal::SavedField,
};

const BYTE: Row = Row {
    width: 1,
    guard: 0,
    low: 0,
    least: 0,
    most: 255,
    refusal: Refusal::SavedField,
};

const RATE: Row = Row {
    width: 8,
    guard: 0,
    low: 0,
    least: 0,
    most: 18446744073709551615,
    refusal: Refusal::SavedField,
};

// Mark, mark, version, length; start, loop start, loop end, flag, the rate's bits.
pub(crate) const FIRST: [Row; 9] = [
    MARK_1, MARK_2, VERSION_1, LENGTH_1, FRAMES, FRAMES, FRAMES, BYTE, RATE,
];

// The same and the pitch's byte.
pub(crate) const SECOND: [Row; 10] = [
    MARK_1, MARK_2, VERSION_2, LENGTH_2, FRAMES, FRAMES, FRAMES, BYTE, RATE, BYTE,
];
