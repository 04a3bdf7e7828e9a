// Traces: a record as its kind and its numbers. Those of version 2 end in `_v2`.
ghost use Rattle.std.specs.Prelude.{◌≡◌, take};
ghost use Rattle.trace_records.specs.Tables.{fields};
ghost use Rattle.trace_records.specs.Records.{record_at};
ghost use Rattle.trace_records.specs.Writes.{write_record};
ghost use Rattle.trace_sealed.specs.Records.{any_at};
ghost use Rattle.trace_sealed.specs.Writes.{write_any};
ghost use Rattle.trace_salvage.specs.Salvage.{salvage_by, salvage_of};
ghost use Rattle.cableowl.specs.Traces.{record_c, sent_of, saved_of};

use cableowl::{Record, Saved, Sent};

#[unsafe(no_mangle)]
pub extern "C" fn cableowl_read_record(bytes: &[u8], at: u64) -> Record
    ensures { result ≡ record_c (record_at bytes.now at) }
{
    cableowl::cableowl_read_record(bytes, at)
}

#[unsafe(no_mangle)]
pub extern "C" fn cableowl_write_record(
    buffer: &mut [u8],
    at: u64,
    kind: u64,
    values: &[u64; 80],
) -> Sent
    ensures { sent_of result buffer.new
        ≡ write_record buffer.old at kind (take (fields kind) values.now) }
{
    cableowl::cableowl_write_record(buffer, at, kind, values)
}

#[unsafe(no_mangle)]
pub extern "C" fn cableowl_salvage(bytes: &[u8], out: &mut [u8]) -> Saved
    ensures { saved_of result out.new ≡ salvage_of bytes.now out.old }
{
    cableowl::cableowl_salvage(bytes, out)
}

// A record of any of the five kinds. The lanes of a laned block stay in the bytes: the 24 * frames bytes before the
// last four of the record.
#[unsafe(no_mangle)]
pub extern "C" fn cableowl_read_record_v2(bytes: &[u8], at: u64) -> Record
    ensures { result ≡ record_c (any_at bytes.now at) }
{
    cableowl::cableowl_read_record_v2(bytes, at)
}

// The lanes are the bytes of the frames of a laned block. A record of kind 4 has none, and kinds 1 to 3 ignore them.
#[unsafe(no_mangle)]
pub extern "C" fn cableowl_write_record_v2(
    buffer: &mut [u8],
    at: u64,
    kind: u64,
    values: &[u64; 80],
    lanes: &[u8],
) -> Sent
    ensures { sent_of result buffer.new
        ≡ write_any buffer.old at kind values.now lanes.now }
{
    cableowl::cableowl_write_record_v2(buffer, at, kind, values, lanes)
}

#[unsafe(no_mangle)]
pub extern "C" fn cableowl_salvage_v2(bytes: &[u8], out: &mut [u8]) -> Saved
    ensures { saved_of result out.new ≡ salvage_by 2 bytes.now out.old }
{
    cableowl::cableowl_salvage_v2(bytes, out)
}
