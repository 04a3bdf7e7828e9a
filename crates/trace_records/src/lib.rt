// A trace's records, read and written: docs/formats/TRACE.md has their layout.
#![tactic(auto)]

ghost use Rattle.std.specs.Prelude.{◌≡◌};
ghost use Rattle.trace_records.specs.Promises.{Promises};
ghost use Rattle.trace_records.specs.Records.{record_at, record_read};

pub mod rows;
mod tables;
mod writes;

use byte_layout::Parsed;
use refusals::Refusal;
pub use tables::is_in_steps;
use tables::{HEAD, Kind};
pub use writes::{put_head, write};

// A record by value: its kind, its numbers in the layout's order and then zeros, and the offset after it. The kind is a
// number, as in the C record: trace_sealed adds kinds to this crate's three.
#[derive(Clone, Copy)]
pub struct Record {
    pub kind: u64,
    pub next: usize,
    pub values: [u64; 80],
}

// The record at an offset of the bytes: any bytes, any offset. They are two parameters, as C passes them: an offset
// past the end is answered too.
pub fn read(s: &[u8], at: usize) -> Result<Record, Refusal>
    ensures { record_read at result ≡ record_at s.now at }
{
    if s.len() < at {
        return Err(Refusal::Truncated);
    }
    let head = byte_layout::read_rows(s, byte_layout::begin(at, 5), &HEAD)?;
    let number = head.values[2];
    let n = head.values[3];
    let kind = Kind::try_from(number)?;
    if !kind.is_possible(n) {
        return Err(Refusal::Record);
    }
    let start = byte_layout::begin(head.at, n as usize);
    let Parsed {
        at: next,
        left,
        values,
    } = byte_layout::read_rows(s, start, kind.rows())?;
    if 0 < left {
        return Err(Refusal::Record);
    }
    Ok(Record {
        kind: number,
        next,
        values,
    })
}

// An empty function whose contract collects the theorems, so that the checker must prove them.
pub fn promised()
    ensures { Promises }
{}
