// Writes a record of any of the five kinds, by the tables by which it is read.
ghost use Rattle.std.specs.Prelude.{◌≡◌, ◌+◌, ◌≤◌, [], length, take};
ghost use Rattle.std.proofs.lemmas.List.Edits.{sets};
ghost use Rattle.byte_layout.specs.Writes.{payload};
ghost use Rattle.trace_records.specs.Writes.{sent, sent_of};
ghost use Rattle.trace_sealed.specs.Tables.{kind_number, field_rows, field_count};
ghost use Rattle.trace_sealed.specs.Writes.{sealed_of, write_sealed, write_any};

use crate::layouts::Kind;
use refusals::Refusal;

// Writes a record whose payload has n bytes, and returns the offset after it.
fn seal(buf: &mut [u8], at: usize, kind: Kind, n: usize, values: [u64; 80], lanes: &[u8]) -> usize
    requires { (at + 5 + n ≤ length buf.old)
        × (n ≡ length (payload (field_rows (kind_number kind)) [] (take (field_count (kind_number kind)) values))
        + length lanes.now + 4) }
    ensures { (buf.new ≡ sets buf.old at
        (sealed_of (kind_number kind) (take (field_count (kind_number kind)) values) lanes.now))
        × (result ≡ at + 5 + n) }
{
    let fields = trace_records::put_head(buf, at, u64::from(kind), n);
    let start = byte_layout::put_rows(buf, fields, values, kind.rows());
    let w = lanes.len();
    byte_layout::copy(lanes, 0, w, buf, start);
    let sum = crc32::checksum(buf, at + 2, n - 1);
    byte_layout::put_number(buf, start + w, 4, u64::from(sum));
    start + w + 4
}

fn write_sealed(
    buf: &mut [u8],
    at: usize,
    kind: Kind,
    values: [u64; 80],
    lanes: &[u8],
) -> Result<usize, Refusal>
    ensures { sent_of (sent at result) buf.new
        ≡ write_sealed buf.old at (kind_number kind) (take (field_count (kind_number kind)) values) lanes.now }
{
    let rows = kind.rows();
    if !byte_layout::rows_fit(values, rows) {
        return Err(Refusal::Record);
    }
    let w = kind.lane_bytes(values[0]);
    if lanes.len() != w {
        return Err(Refusal::Record);
    }
    let n = byte_layout::rows_length(values, rows) + w + 4;
    if buf.len().saturating_sub(at) < 5 + n {
        return Err(Refusal::Room);
    }
    Ok(seal(buf, at, kind, n, values, lanes))
}

// Writes a record of any kind at an offset of a buffer, and returns the offset after it. It accepts any kind, numbers,
// lanes and offset. The lanes are the bytes of the frames of a laned block; a record of kind 4 has none, and kinds 1 to
// 3 ignore them.
pub fn write(
    buf: &mut [u8],
    at: usize,
    kind: u64,
    values: [u64; 80],
    lanes: &[u8],
) -> Result<usize, Refusal>
    ensures { sent_of (sent at result) buf.new
        ≡ write_any buf.old at kind values lanes.now }
{
    match Kind::try_from(kind) {
        Ok(sealed) => write_sealed(buf, at, sealed, values, lanes),
        Err(_) => trace_records::write(buf, at, kind, values),
    }
}
