// Salvage of a damaged trace: copies complete records and skips every other byte, one at a time.
#![tactic(auto)]

ghost use Rattle.std.specs.Prelude.{◌≡◌, ◌≤◌, ◌<◌, length};
ghost use Rattle.trace_salvage.specs.Promises.{Promises};
ghost use Rattle.trace_salvage.specs.Salvage.{Ends, saved, saved_of, salvage_by, salvage_of, Salvages};

use refusals::Refusal;

// A salvage in progress: the offsets in the input and in the output, the bytes skipped, the records kept, and the
// offset of the first skipped byte.
#[derive(Clone, Copy, Debug, PartialEq, Eq)]
pub struct Salvaging {
    pub at: usize,
    pub w: usize,
    pub skip: usize,
    pub records: usize,
    pub first: Option<usize>,
}

// The result of a salvage: the records kept, the bytes skipped, and the offset of the first of them, or of the end.
// That is no Option: C reads one offset.
#[derive(Clone, Copy, Debug, PartialEq, Eq)]
pub struct Saved {
    pub records: usize,
    pub skipped: usize,
    pub first: usize,
}

// The offset after the complete record at an offset, if there is one. A record begins with A5, so the reader is not
// called at any other byte.
fn record_end(reader: u64, s: &[u8], at: usize) -> Option<usize>
    ensures { Ends reader s.now at result }
{
    if s.len() <= at {
        return None;
    }
    if s[at] != 0xa5 {
        return None;
    }
    let record = if reader == 1 {
        trace_records::read(s, at)
    } else {
        trace_sealed::read(s, at)
    };
    match record {
        Ok(record) => Some(record.next),
        Err(_) => None,
    }
}

// Copies the record at the offset, or skips a byte.
fn step(reader: u64, s: &[u8], out: &mut [u8], t: Salvaging) -> Salvaging
    requires { (t.at < length s.now) × (t.w ≤ t.at) × (t.skip ≤ t.at) × (t.records ≤ t.at)
        × (length s.now ≤ length out.old) }
    ensures { Salvages reader s.now out.old out.new t result }
{
    match record_end(reader, s, t.at) {
        Some(end) => {
            byte_layout::copy(s, t.at, end, out, t.w);
            Salvaging {
                at: end,
                w: t.w + (end - t.at),
                records: t.records + 1,
                ..t
            }
        }
        None => Salvaging {
            at: t.at + 1,
            skip: t.skip + 1,
            first: Some(t.first.unwrap_or(t.at)),
            ..t
        },
    }
}

// Copies the complete records of s to the start of out, those that the reader of a version accepts: reader 1 knows
// kinds 1 to 3, any other all five. The reader is a number, and any is accepted: a type of two readers would ask more
// of callers.
pub fn salvage_by(reader: u64, s: &[u8], out: &mut [u8]) -> Result<Saved, Refusal>
    ensures { saved_of (saved result) out.new ≡ salvage_by reader s.now out.old }
{
    if out.len() < s.len() {
        return Err(Refusal::Output);
    }
    let mut t = Salvaging {
        at: 0,
        w: 0,
        skip: 0,
        records: 0,
        first: None,
    };
    // A `while` and no `for`: each step passes a record or a single byte.
    while t.at < s.len() {
        t = step(reader, s, out, t);
    }
    Ok(Saved {
        records: t.records,
        skipped: t.skip,
        first: t.first.unwrap_or(t.at),
    })
}

// The same for a trace of version 1.
pub fn salvage(s: &[u8], out: &mut [u8]) -> Result<Saved, Refusal>
    ensures { saved_of (saved result) out.new ≡ salvage_of s.now out.old }
{
    salvage_by(1, s, out)
}

// An empty function whose contract collects the theorems, so that the checker must prove them.
pub fn promised()
    ensures { Promises }
{}
