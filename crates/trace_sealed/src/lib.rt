// Sealed records, kinds 4 and 5 of a trace, and the reader and the writer of all five kinds: docs/formats/TRACE.md,
// "Version 2".
#![tactic(auto)]

ghost use Rattle.std.specs.Prelude.{◌≡◌, ◌+◌, ◌-◌, ◌<◌, true, length, take, drop};
ghost use Rattle.refusals.specs.Numbers.{number_of};
ghost use Rattle.byte_layout.specs.Reads.{good};
ghost use Rattle.trace_records.specs.Records.{record_read};
ghost use Rattle.trace_sealed.specs.Promises.{Promises};
ghost use Rattle.trace_sealed.specs.Tables.{kind_number, field_count};
ghost use Rattle.trace_sealed.specs.Records.{Fields, tail, closed, is_sealed, valued, sealed_at, any_at};

mod layouts;
mod writes;

use byte_layout::Parsed;
use layouts::{HEAD, Kind};
use refusals::Refusal;
use trace_records::Record;
pub use writes::write;

// Refuses w bytes of lanes where the checksum has this offset.
fn check_tail(w: usize, left: usize, input: usize) -> Result<(), Refusal>
    ensures { number_of result ≡ tail w left input }
{
    if w <= left {
        if input < w {
            return Err(Refusal::Truncated);
        }
        if w != left {
            return Err(Refusal::Record);
        }
        if input - w < 4 {
            return Err(Refusal::Truncated);
        }
        return Ok(());
    }
    if left <= input {
        return Err(Refusal::Record);
    }
    Err(Refusal::Truncated)
}

// Lanes and checksum after the fields of a record that begins at `at` and whose payload has n bytes.
fn close(s: &[u8], at: usize, kind: Kind, n: usize, fields: Parsed) -> Result<Record, Refusal>
    requires { Fields s.now at (kind_number kind) n fields }
    ensures { record_read at result ≡ valued (length s.now) at
        (closed (take (n - 1) (drop 2 (drop at s.now))) (kind_number kind)
        (good fields.left (take (field_count (kind_number kind)) fields.values) (drop fields.at s.now))) }
{
    let Parsed {
        at: end,
        left,
        values,
    } = fields;
    let w = kind.lane_bytes(values[0]);
    check_tail(w, left, s.len() - end)?;
    let sum = end + w;
    let wanted = crc32::checksum(s, at + 2, n - 1);
    if byte_layout::number(s, sum, 4) != u64::from(wanted) {
        return Err(Refusal::Record);
    }
    Ok(Record {
        kind: u64::from(kind),
        next: sum + 4,
        values,
    })
}

// The sealed record at an offset within the bytes.
fn read_sealed(s: &[u8], at: usize) -> Result<Record, Refusal>
    requires { at + 2 < length s.now }
    ensures { record_read at result ≡ sealed_at s.now at }
{
    let head = byte_layout::read_rows(s, byte_layout::begin(at, 5), &HEAD)?;
    let kind = Kind::try_from(head.values[2])?;
    let n = head.values[3];
    if !kind.is_possible(n) {
        return Err(Refusal::Record);
    }
    let start = byte_layout::begin(head.at, (n - 4) as usize);
    let fields = byte_layout::read_rows(s, start, kind.rows())?;
    close(s, at, kind, n as usize, fields)
}

// Whether the byte of the kind is 4 or 5. Compared as a byte: `Kind::try_from` would make a kind only to drop it.
fn is_sealed(s: &[u8], at: usize) -> bool
    ensures { (result ≡ is_sealed (drop at s.now))
        × (result ≡ true → at + 2 < length s.now) }
{
    if s.len() < at {
        return false;
    }
    if s.len() - at < 3 {
        return false;
    }
    let i = at + 2;
    let kind = s[i];
    (4 <= kind) & (kind <= 5)
}

// The record of any of the five kinds at an offset. It accepts any bytes and any offset.
pub fn read(s: &[u8], at: usize) -> Result<Record, Refusal>
    ensures { record_read at result ≡ any_at s.now at }
{
    if is_sealed(s, at) {
        read_sealed(s, at)
    } else {
        trace_records::read(s, at)
    }
}

// An empty function whose contract collects the theorems, so that the checker must prove them.
pub fn promised()
    ensures { Promises }
{}
