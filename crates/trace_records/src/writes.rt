// Writes a record, by the same tables as it is read.
ghost use Rattle.std.specs.Prelude.{◌≡◌, ◌+◌, ◌≤◌, [], length, take};
ghost use Rattle.std.proofs.lemmas.List.Edits.{sets};
ghost use Rattle.byte_layout.specs.Writes.{payload};
ghost use Rattle.trace_records.specs.Tables.{head_rows, fields};
ghost use Rattle.trace_records.specs.Writes.{head_of, sent, sent_of, write_record};

use crate::tables::{HEAD, Kind};
use refusals::Refusal;

// Writes the head of a record whose payload has n bytes, and returns the offset after it. The kind is a number: this
// crate and trace_sealed have kinds of their own, and both write their heads here.
pub fn put_head(buf: &mut [u8], at: usize, kind: u64, n: usize) -> usize
    requires { at + 5 ≤ length buf.old }
    ensures { (buf.new ≡ sets buf.old at (payload head_rows [] (head_of kind n)))
        × (result ≡ at + 5) }
{
    let mut values = [0u64; 80];
    values[0] = 165;
    values[1] = 29;
    values[2] = kind;
    values[3] = n as u64;
    byte_layout::put_rows(buf, at, values, &HEAD)
}

// Writes a record at an offset of a buffer, and returns the offset after it: any kind, any numbers, any offset.
pub fn write(buf: &mut [u8], at: usize, kind: u64, values: [u64; 80]) -> Result<usize, Refusal>
    ensures { sent_of (sent at result) buf.new
        ≡ write_record buf.old at kind (take (fields kind) values) }
{
    let rows = Kind::try_from(kind)?.rows();
    if !byte_layout::rows_fit(values, rows) {
        return Err(Refusal::Record);
    }
    let n = byte_layout::rows_length(values, rows);
    if buf.len().saturating_sub(at) < 5 + n {
        return Err(Refusal::Room);
    }
    let start = put_head(buf, at, kind, n);
    Ok(byte_layout::put_rows(buf, start, values, rows))
}
