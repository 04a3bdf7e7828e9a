// The C entries of traces: crates trace_records, trace_sealed and trace_salvage, a record as its kind and its numbers.
// Those of version 2 end in `_v2`.
ghost use Rattle.std.specs.Prelude.{◌≡◌, take};
ghost use Rattle.trace_records.specs.Tables.{fields};
ghost use Rattle.trace_records.specs.Records.{record_at, record_read};
ghost use Rattle.trace_records.specs.Writes.{sent, write_record};
ghost use Rattle.trace_sealed.specs.Records.{any_at};
ghost use Rattle.trace_sealed.specs.Writes.{write_any};
ghost use Rattle.trace_salvage.specs.Salvage.{saved, salvage_by, salvage_of};
ghost use Rattle.cableowl.specs.Traces.{record_c, sent_c, sent_of, saved_c, saved_of};

use crate::value_or;
use refusals::Refusal;

// A record by value: its kind, its numbers in the layout's order and then zeros, and the offset after it. If it is
// refused: the refusal, every other number 0, and the record's own offset.
#[repr(C)]
#[derive(Clone, Copy)]
pub struct Record {
    pub refusal: u64,
    pub kind: u64,
    pub next: usize,
    pub values: [u64; 80],
}

// The result of a write: 0 or a refusal, and the offset after the record, or its own.
#[repr(C)]
#[derive(Clone, Copy, Debug, PartialEq, Eq, Hash)]
pub struct Sent {
    pub refusal: u64,
    pub next: usize,
}

// The result of a salvage: 0 or a refusal, the records kept, the bytes skipped, and the offset of the first of them.
#[repr(C)]
#[derive(Clone, Copy, Debug, PartialEq, Eq, Hash)]
pub struct Saved {
    pub refusal: u64,
    pub records: usize,
    pub skipped: usize,
    pub first: usize,
}

fn record_of(at: usize, read: Result<trace_records::Record, Refusal>) -> Record
    ensures { result ≡ record_c (record_read at read) }
{
    match read {
        Ok(read) => {
            let values = read.values;
            Record {
                refusal: 0,
                kind: read.kind,
                next: read.next,
                values,
            }
        }
        Err(refusal) => Record {
            refusal: u64::from(refusal),
            kind: 0,
            next: at,
            values: [0; 80],
        },
    }
}

fn written(at: usize, answer: Result<usize, Refusal>) -> Sent
    ensures { result ≡ sent_c (sent at answer) }
{
    let (next, refusal) = value_or(at, answer);
    Sent {
        refusal: u64::from(refusal),
        next,
    }
}

fn salvaged(answer: Result<trace_salvage::Saved, Refusal>) -> Saved
    ensures { result ≡ saved_c (saved answer) }
{
    match answer {
        Ok(saved) => Saved {
            refusal: 0,
            records: saved.records,
            skipped: saved.skipped,
            first: saved.first,
        },
        Err(refusal) => Saved {
            refusal: u64::from(refusal),
            records: 0,
            skipped: 0,
            first: 0,
        },
    }
}

#[unsafe(no_mangle)]
pub extern "C" fn cableowl_read_record(bytes: &[u8], at: u64) -> Record
    ensures { result ≡ record_c (record_at bytes.now at) }
{
    record_of(at as usize, trace_records::read(bytes, at as usize))
}

#[unsafe(no_mangle)]
pub extern "C" fn cableowl_write_record(
    buffer: &mut [u8],
    at: u64,
    kind: u64,
    values: &[u64; 80],
) -> Sent
    ensures { sent_of result buffer.new
        ≡ write_record buffer.old at kind (take (fields kind) values.now) }
{
    let sent = trace_records::write(buffer, at as usize, kind, *values);
    written(at as usize, sent)
}

#[unsafe(no_mangle)]
pub extern "C" fn cableowl_salvage(bytes: &[u8], out: &mut [u8]) -> Saved
    ensures { saved_of result out.new ≡ salvage_of bytes.now out.old }
{
    salvaged(trace_salvage::salvage(bytes, out))
}

// A record of any of the five kinds. The lanes of a laned block stay in the bytes: the 24 * frames bytes before the
// last four of the record.
#[unsafe(no_mangle)]
pub extern "C" fn cableowl_read_record_v2(bytes: &[u8], at: u64) -> Record
    ensures { result ≡ record_c (any_at bytes.now at) }
{
    record_of(at as usize, trace_sealed::read(bytes, at as usize))
}

// The lanes are the bytes of the frames of a laned block. A record of kind 4 has none, and kinds 1 to 3 ignore them.
#[unsafe(no_mangle)]
pub extern "C" fn cableowl_write_record_v2(
    buffer: &mut [u8],
    at: u64,
    kind: u64,
    values: &[u64; 80],
    lanes: &[u8],
) -> Sent
    ensures { sent_of result buffer.new
        ≡ write_any buffer.old at kind values.now lanes.now }
{
    let sent = trace_sealed::write(buffer, at as usize, kind, *values, lanes);
    written(at as usize, sent)
}

#[unsafe(no_mangle)]
pub extern "C" fn cableowl_salvage_v2(bytes: &[u8], out: &mut [u8]) -> Saved
    ensures { saved_of result out.new ≡ salvage_by 2 bytes.now out.old }
{
    salvaged(trace_salvage::salvage_by(2, bytes, out))
}
