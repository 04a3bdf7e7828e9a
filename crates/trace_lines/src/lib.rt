// Formats the lines that a replay prints, at the start of a buffer of at least 139 bytes.
// A state and a refusal are numbers here: the lines print them so, and this crate knows no player.
#![tactic(auto)]

ghost use Rattle.std.specs.Prelude.{◌≡◌, ◌+◌, ◌≤◌, length};
ghost use Rattle.std.proofs.lemmas.List.Edits.{sets};
ghost use Rattle.trace_lines.specs.Lines.{decimal, labelled, block_line, refused_block_line, refused_line};

// Writes the bytes of a text at `at`, and returns the offset after them.
fn put(line: &mut [u8], at: usize, text: &[u8]) -> usize
    requires { at + length text.now ≤ length line.old }
    ensures { (line.new ≡ sets line.old at text.now)
        × (result ≡ at + length text.now) }
{
    byte_layout::copy(text, 0, text.len(), line, at);
    at + text.len()
}

// Writes a number in decimal, from its last digit on. How many digits there are shows only at the end, so the loop is a
// `while` and no `for`.
fn put_decimal(line: &mut [u8], at: usize, n: u64) -> usize
    requires { at + 20 ≤ length line.old }
    ensures { (line.new ≡ sets line.old at (decimal n)) × (result ≡ at + length (decimal n))
        × (result ≤ at + 20) }
{
    let mut digits = [0u8; 20];
    let mut i: usize = 19;
    let mut y = n;
    while 10 <= y {
        digits[i] = (48 + y % 10) as u8;
        y = y / 10;
        i -= 1;
    }
    digits[i] = (48 + y) as u8;
    put(line, at, &digits[i..20])
}

// Writes a word and a number. `write!` would need a writer over the buffer, whose contract says nothing of the bytes.
fn put_labelled(line: &mut [u8], at: usize, word: &[u8], n: u64) -> usize
    requires { at + length word.now + 20 ≤ length line.old }
    ensures { (line.new ≡ sets line.old at (labelled word.now n))
        × (result ≡ at + length (labelled word.now n)) × (result ≤ at + length word.now + 20) }
{
    let a = put(line, at, word);
    put_decimal(line, a, n)
}

// `block=1 frames=6 steps=6 state=6 position=3`. That a line has at least 139 bytes is a clause, here and below: an
// array of that length would ask more of callers.
pub fn put_block(
    line: &mut [u8],
    number: u64,
    frames: u64,
    steps: u64,
    state: u64,
    position: u64,
) -> usize
    requires { 139 ≤ length line.old }
    ensures { (line.new ≡ sets line.old 0 (block_line number frames steps state position))
        × (result ≡ length (block_line number frames steps state position)) × (result ≤ 139) }
{
    let a = put_labelled(line, 0, b"block=", number);
    let b = put_labelled(line, a, b" frames=", frames);
    let c = put_labelled(line, b, b" steps=", steps);
    let d = put_labelled(line, c, b" state=", state);
    let e = put_labelled(line, d, b" position=", position);
    put(line, e, b"\n")
}

// `block=1 refused=12`
pub fn put_refused_block(line: &mut [u8], number: u64, refusal: u64) -> usize
    requires { 139 ≤ length line.old }
    ensures { (line.new ≡ sets line.old 0 (refused_block_line number refusal))
        × (result ≡ length (refused_block_line number refusal)) × (result ≤ 139) }
{
    let a = put_labelled(line, 0, b"block=", number);
    let b = put_labelled(line, a, b" refused=", refusal);
    put(line, b, b"\n")
}

// `refused=15 at=0`. The two lines of a refusal differ in words: one function for both would hide them among its
// parameters.
pub fn put_refused(line: &mut [u8], refusal: u64, at: u64) -> usize
    requires { 139 ≤ length line.old }
    ensures { (line.new ≡ sets line.old 0 (refused_line refusal at))
        × (result ≡ length (refused_line refusal at)) × (result ≤ 139) }
{
    let a = put_labelled(line, 0, b"refused=", refusal);
    let b = put_labelled(line, a, b" at=", at);
    put(line, b, b"\n")
}
