// Numbers as bytes, by a table of rows: one reader and one writer for every table. What is written is read back as
// the same numbers, and what is read is written again byte for byte (proofs/Codec.antt).
#![tactic(auto)]

ghost use Rattle.std.specs.Prelude.{◌≡◌, ℕ, ◌+◌, ◌-◌, ◌≤◌, ◌<◌, true, [], Ok, IfOk};
ghost use Rattle.std.specs.Prelude.{length, take, drop, replicate};
ghost use Rattle.std.proofs.lemmas.List.Edits.{sets};
ghost use Rattle.byte_layout.specs.Numbers.{num, bytes};
ghost use Rattle.byte_layout.specs.Rows.{stands, within, sound};
ghost use Rattle.byte_layout.specs.Reads.{step, steps, view};
ghost use Rattle.byte_layout.specs.Writes.{field, payload, fits, fine};

use refusals::Refusal;

// A row: a number of `width` bytes, from `least` to `most` or refused with `refusal`. It is present if the number of
// row `guard` is at least `low`.
#[derive(Clone, Copy, Debug, PartialEq, Eq)]
pub struct Row {
    pub width: usize,
    pub guard: usize,
    pub low: u64,
    pub least: u64,
    pub most: u64,
    pub refusal: Refusal,
}

// A parse in progress: at offset `at` with `left` bytes of payload left, and the numbers read. They are 80 in fixed
// memory, as in the C record of a trace; how many of them a table reads is its length.
#[derive(Clone, Copy, Debug, PartialEq, Eq)]
pub struct Parsed {
    pub at: usize,
    pub left: usize,
    pub values: [u64; 80],
}

impl Row {
    // Whether the row is present after these numbers.
    fn stands(self, before: &[u64]) -> bool
        ensures { result ≡ stands self before.now }
    {
        let x = before.get(self.guard).copied().unwrap_or(0);
        self.low <= x
    }

    fn contains(self, x: u64) -> bool
        ensures { result ≡ within self x }
    {
        (self.least <= x) & (x <= self.most)
    }

    // Whether the row accepts x after these numbers.
    fn accepts(self, before: &[u64], x: u64) -> bool
        ensures { result ≡ fits (stands self before.now) self x }
    {
        if self.stands(before) {
            self.contains(x)
        } else {
            x == 0
        }
    }

    // The bytes of the row after these numbers, whatever its own. That a width is at most 8 is a clause: `sound` says
    // it of a whole table, and the prover computes it.
    fn length(self, before: &[u64]) -> usize
        requires { self.width ≤ 8 }
        ensures { ((x : ℕ) → result ≡ length (field (stands self before.now) self x)) × (result ≤ 8) }
    {
        if self.stands(before) { self.width } else { 0 }
    }

    // Writes the row's number x after these numbers, and returns the offset after it.
    fn put(self, before: &[u64], x: u64, buf: &mut [u8], at: usize) -> usize
        requires { at + length (field (stands self before.now) self x) ≤ length buf.old }
        ensures { (buf.new ≡ sets buf.old at (field (stands self before.now) self x))
            × (result ≡ at + length (field (stands self before.now) self x)) }
    {
        if self.stands(before) {
            let w = self.width;
            put_number(buf, at, w, x);
            return at + w;
        }
        at
    }

    // Reads the row, the row of number i.
    fn read(self, s: &[u8], p: Parsed, i: usize) -> Result<Parsed, Refusal>
        requires { (i < 80) × (p.at ≤ length s.now) × (self.width ≤ 8) }
        ensures { (view s.now (i + 1) result ≡ step self (view s.now i (Ok p)))
            × IfOk result (λ q. (q.at ≤ length s.now) × (drop (i + 1) q.values ≡ drop (i + 1) p.values)) }
    {
        let Parsed {
            at,
            left,
            mut values,
        } = p;
        if !self.stands(&values[..i]) {
            values[i] = 0;
            return Ok(Parsed { at, left, values });
        }
        let w = self.width;
        let n = s.len() - at;
        if left < w {
            if left <= n {
                return Err(Refusal::Record);
            }
            return Err(Refusal::Truncated);
        }
        if n < w {
            return Err(Refusal::Truncated);
        }
        let x = number(s, at, w);
        if !self.contains(x) {
            return Err(self.refusal);
        }
        values[i] = x;
        Ok(Parsed {
            at: at + w,
            left: left - w,
            values,
        })
    }
}

// ---- reading

// The number of the `width` bytes from `at`, lowest first.
pub fn number(s: &[u8], at: usize, width: usize) -> u64
    requires { (at + width ≤ length s.now) × (width ≤ 8) }
    ensures { result ≡ num (take width (drop at s.now)) }
{
    let mut x: u64 = 0;
    for i in (at..at + width).rev() {
        let b = s[i] as u64;
        x = x * 256 + b;
    }
    x
}

// A parse at `at` with `left` bytes of payload to read.
pub fn begin(at: usize, left: usize) -> Parsed
    ensures { result ≡ record { at = at; left = left; values = replicate 80 0 } }
{
    Parsed {
        at,
        left,
        values: [0; 80],
    }
}

// Reads a table's rows. The values after theirs do not change. Four functions ask for at most 80 rows, as there are 80
// numbers. The prover computes the length of each table, so a type that says it would be no plainer.
pub fn read_rows(s: &[u8], parsed: Parsed, table: &[Row]) -> Result<Parsed, Refusal>
    requires { (parsed.at ≤ length s.now) × (length table.now ≤ 80) × (sound table.now ≡ true) }
    ensures { (view s.now (length table.now) result ≡ steps table.now (view s.now 0 (Ok parsed)))
        × IfOk result (λ q. (q.at ≤ length s.now)
        × (drop (length table.now) q.values ≡ drop (length table.now) parsed.values)) }
{
    let mut q = parsed;
    for (i, row) in table.iter().enumerate() {
        q = row.read(s, q, i)?;
    }
    Ok(q)
}

// ---- writing

// Writes the `width` bytes of x from `at`, lowest first.
pub fn put_number(buf: &mut [u8], at: usize, width: usize, x: u64)
    requires { at + width ≤ length buf.old }
    ensures { buf.new ≡ sets buf.old at (bytes width x) }
{
    let mut y = x;
    for i in at..at + width {
        buf[i] = (y % 256) as u8;
        y /= 256;
    }
}

// Writes the numbers of a table's rows, and returns the offset after them. The numbers are all 80, as each caller has
// them from a parse or from C: a slice of them would say no more.
pub fn put_rows(buf: &mut [u8], at: usize, values: [u64; 80], table: &[Row]) -> usize
    requires { (length table.now ≤ 80)
        × (at + length (payload table.now [] (take (length table.now) values)) ≤ length buf.old) }
    ensures { (buf.new
        ≡ sets buf.old at (payload table.now [] (take (length table.now) values)))
        × (result ≡ at + length (payload table.now [] (take (length table.now) values))) }
{
    let mut a = at;
    for (i, row) in table.iter().enumerate() {
        a = row.put(&values[..i], values[i], buf, a);
    }
    a
}

// Whether a table's rows accept the values.
pub fn rows_fit(values: [u64; 80], table: &[Row]) -> bool
    requires { length table.now ≤ 80 }
    ensures { result ≡ fine table.now [] (take (length table.now) values) }
{
    for (i, row) in table.iter().enumerate() {
        if !row.accepts(&values[..i], values[i]) {
            return false;
        }
    }
    true
}

// The bytes of the numbers of a table's rows.
pub fn rows_length(values: [u64; 80], table: &[Row]) -> usize
    requires { (length table.now ≤ 80) × (sound table.now ≡ true) }
    ensures { result ≡ length (payload table.now [] (take (length table.now) values)) }
{
    let mut k: usize = 0;
    for (i, row) in table.iter().enumerate() {
        k += row.length(&values[..i]);
    }
    k
}

// Copies s from `from` up to `to` into out from `at` on.
pub fn copy(s: &[u8], from: usize, to: usize, out: &mut [u8], at: usize)
    requires { (from ≤ to) × (to ≤ length s.now) × (at + (to - from) ≤ length out.old) }
    ensures { out.new ≡ sets out.old at (take (to - from) (drop from s.now)) }
{
    let end = at + (to - from);
    out[at..end].copy_from_slice(&s[from..to]);
}
