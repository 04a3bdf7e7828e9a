// The layout of docs/formats/LOOPS.md up to the names. Every row is present.

use byte_layout::Row;
use refusals::Refusal;

const MARK_1: Row = Row {
    width: 1,
    guard: 0,
    low: 0,
    least: 167,
    most: 167,
    refusal: Refusal::Mark,
};

const MARK_2: Row = Row {
    width: 1,
    guard: 0,
    low: 0,
    least: 76,
    most: 76,
    refusal: Refusal::Mark,
};

const VERSION: Row = Row {
    width: 1,
    guard: 0,
    low: 0,
    least: 1,
    most: 1,
    refusal: Refusal::Version,
};

const LENGTH: Row = Row {
    width: 2,
    guard: 0,
    low: 0,
    least: 661,
    most: 661,
    refusal: Refusal::SavedField,
};

const HALL: Row = Row {
    width: 1,
    guard: 0,
    low: 0,
    least: 0,
    most: 255,
    refusal: Refusal::SavedField,
};

const WORD: Row = Row {
    width: 8,
    guard: 0,
    low: 0,
    least: 0,
    most: 18446744073709551615,
    refusal: Refusal::SavedField,
};

// Mark, mark, version, length; hall, frames of the sound, number of changes; start and end of each of the eight slots.
pub(crate) const HALF: [Row; 23] = [
    MARK_1, MARK_2, VERSION, LENGTH, HALL, WORD, WORD, WORD, WORD, WORD, WORD, WORD, WORD, WORD,
    WORD, WORD, WORD, WORD, WORD, WORD, WORD, WORD, WORD,
];
