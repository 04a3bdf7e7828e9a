// A hall's half of a loop table as bytes, stored and loaded: docs/formats/LOOPS.md has their layout. The names are
// bytes here; the host checks whether they are text. A half is nineteen words and no struct: C passes it so, with any
// words, and the theorems are about them.
#![tactic(auto)]

ghost use Rattle.std.specs.Prelude.{◌≡◌, [], ◌≤◌, length, take, drop};
ghost use Rattle.std.proofs.lemmas.List.Edits.{sets};
ghost use Rattle.refusals.specs.Numbers.{number_of};
ghost use Rattle.byte_layout.specs.Writes.{payload};
ghost use Rattle.saved_loops.specs.Tables.{half_rows};
ghost use Rattle.saved_loops.specs.Records.{
  well_formed_slots,
  well_formed,
  crc_right,
  loaded,
  half_of,
  half_numbers,
  encoded,
  storable,
  store_refusal,
  stored,
};
ghost use Rattle.saved_loops.specs.Promises.{Promises};

mod layouts;

use layouts::HALF;
use loop_table::LoopSlot;
use refusals::Refusal;

// ---- fields

fn are_slots(words: [u64; 19]) -> bool
    ensures { result ≡ well_formed_slots 8 words }
{
    let mut ok = true;
    for k in 0..8 {
        let slot = LoopSlot {
            start: words[3 + 2 * k],
            end: words[4 + 2 * k],
        };
        ok &= slot.is_well_formed(words[1]);
    }
    ok
}

fn is_well_formed(words: [u64; 19]) -> bool
    ensures { result ≡ well_formed words }
{
    (words[0] <= 1) & are_slots(words)
}

// ---- loading

// The words among the numbers of a record. A function: a `From` between two arrays of numbers would not say which.
fn words_of(values: [u64; 80]) -> [u64; 19]
    ensures { result ≡ take 19 (drop 4 values) }
{
    let mut words = [0u64; 19];
    words.copy_from_slice(&values[4..23]);
    words
}

fn is_crc(s: &[u8]) -> bool
    requires { 666 ≤ length s.now }
    ensures { result ≡ crc_right s.now }
{
    let crc = crc32::checksum(s, 0, 662);
    byte_layout::number(s, 662, 4) == crc as u64
}

// Loads a half's words from any bytes. It does not read what follows the record.
pub fn load(s: &[u8]) -> Result<[u64; 19], Refusal>
    ensures { half_of result ≡ loaded s.now }
{
    let parsed = byte_layout::read_rows(s, byte_layout::begin(0, 666), &HALF)?;
    if s.len() < 666 {
        return Err(Refusal::Truncated);
    }
    let words = words_of(parsed.values);
    if !(is_well_formed(words) & is_crc(s)) {
        return Err(Refusal::SavedField);
    }
    Ok(words)
}

// ---- storing

fn is_storable(words: [u64; 19], named: usize) -> bool
    ensures { result ≡ storable words named }
{
    is_well_formed(words) & (named == 512)
}

fn check_store(words: [u64; 19], named: usize, room: usize) -> Result<(), Refusal>
    ensures { number_of result ≡ store_refusal words named room }
{
    if !is_storable(words, named) {
        return Err(Refusal::SavedField);
    }
    if room < 666 {
        return Err(Refusal::Room);
    }
    Ok(())
}

fn numbers(words: [u64; 19]) -> [u64; 80]
    ensures { take 23 result ≡ half_numbers words }
{
    let mut values = [0u64; 80];
    values[0] = 167;
    values[1] = 76;
    values[2] = 1;
    values[3] = 661;
    values[4..23].copy_from_slice(&words);
    values
}

fn put_numbers(words: [u64; 19], buffer: &mut [u8])
    requires { 666 ≤ length buffer.old }
    ensures { buffer.new ≡ sets buffer.old 0 (payload half_rows [] (half_numbers words)) }
{
    byte_layout::put_rows(buffer, 0, numbers(words), &HALF);
}

fn put(words: [u64; 19], names: &[u8], buffer: &mut [u8])
    requires { (length names.now ≡ 512) × (666 ≤ length buffer.old) }
    ensures { buffer.new ≡ sets buffer.old 0 (encoded words names.now) }
{
    put_numbers(words, buffer);
    byte_layout::copy(names, 0, 512, buffer, 150);
    let crc = crc32::checksum(buffer, 0, 662);
    byte_layout::put_number(buffer, 662, 4, crc as u64);
}

// Writes the record to the start of the buffer, or returns a refusal and writes nothing. The names have 64 bytes for
// each slot.
pub fn store(words: [u64; 19], names: &[u8], buffer: &mut [u8]) -> Result<(), Refusal>
    ensures { (number_of result ≡ store_refusal words (length names.now) (length buffer.old))
        × (buffer.new ≡ stored words names.now buffer.old) }
{
    check_store(words, names.len(), buffer.len())?;
    put(words, names, buffer);
    Ok(())
}

// An empty function whose contract collects the theorems, so that the checker must prove them.
pub fn promised()
    ensures { Promises }
{}
