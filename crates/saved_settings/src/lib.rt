// Saved settings, stored and loaded: docs/formats/SETTINGS.md has their layout.
#![tactic(auto)]

ghost use Rattle.std.specs.Prelude.{◌≡◌, ◌≤◌, [], length, take, IfOk};
ghost use Rattle.std.proofs.lemmas.List.Edits.{sets};
ghost use Rattle.refusals.specs.Numbers.{number_of};
ghost use Rattle.byte_layout.specs.Reads.{good, steps, view};
ghost use Rattle.saved_settings.specs.Records.{
  version_number,
  layout,
  loop_right,
  finite_bits,
  pitch_right,
  well_formed,
  has_loop_word,
  pitch_of,
  saved_of,
  shown,
  version_in,
  loaded,
  loaded_of,
  storable,
  store_refusal,
  encoded,
  stored,
};
ghost use Rattle.saved_settings.specs.Records as Records;
ghost use Rattle.saved_settings.specs.Promises.{Promises};

mod tables;

use byte_layout::{Parsed, Row};
use refusals::Refusal;
use tables::{FIRST, SECOND};

// Frames, the rate by its bits, the pitch in semitones in two's complement. Without a loop both loop numbers are 0.
// `has_loop` and `reverse` are numbers: a C caller gives any, and `store` refuses those other than 0 and 1.
#[derive(Clone, Copy, Debug, PartialEq, Eq)]
pub struct SavedSettings {
    pub start: u64,
    pub has_loop: u64,
    pub loop_start: u64,
    pub loop_end: u64,
    pub reverse: u64,
    pub rate: u64,
    pub pitch: u64,
}

// The fields and the number of their version, which C reads.
#[derive(Clone, Copy, Debug, PartialEq, Eq)]
pub struct Loaded {
    pub settings: SavedSettings,
    pub version: u64,
}

#[derive(Clone, Copy, Debug, PartialEq, Eq)]
enum Version {
    First,
    Second,
}

impl Version {
    // A method like `size` and `layout`: a `From` would say the same in more lines.
    fn number(self) -> u64
        ensures { result ≡ version_number self }
    {
        match self {
            Version::First => 1,
            Version::Second => 2,
        }
    }

    // The bytes of a record.
    fn size(self) -> usize
        ensures { result ≡ Records.size (version_number self) }
    {
        match self {
            Version::First => 25,
            Version::Second => 26,
        }
    }

    fn layout(self) -> &'static [Row]
        ensures { result.now ≡ layout self }
    {
        match self {
            Version::First => &FIRST,
            Version::Second => &SECOND,
        }
    }
}

// ---- fields

fn is_loop(s: SavedSettings) -> bool
    ensures { result ≡ loop_right s }
{
    match s.has_loop {
        0 => (s.loop_start == 0) & (s.loop_end == 0),
        1 => s.loop_start < s.loop_end,
        _ => false,
    }
}

// By the bits: settings are words, and no float is made of them.
fn is_finite(bits: u64) -> bool
    ensures { result ≡ finite_bits bits }
{
    bits % 9223372036854775808 < 9218868437227405312
}

fn is_pitch(pitch: u64) -> bool
    ensures { result ≡ pitch_right pitch }
{
    (pitch <= 24) | (pitch >= 18446744073709551592)
}

fn is_well_formed(s: SavedSettings) -> bool
    ensures { result ≡ well_formed s }
{
    is_loop(s)
        & (s.start <= 4294967295)
        & (s.loop_end <= 4294967295)
        & (s.reverse <= 1)
        & is_finite(s.rate)
        & is_pitch(s.pitch)
}

// ---- loading

fn signed(byte: u64) -> u64
    ensures { result ≡ Records.signed byte }
{
    if byte < 128 {
        return byte;
    }
    std::num::wrapping_add_u64(byte, 18446744073709551360)
}

fn has_loop(start: u64, end: u64) -> u64
    ensures { result ≡ has_loop_word start end }
{
    if (start == 0) & (end == 0) { 0 } else { 1 }
}

fn pitch_of(version: Version, byte: u64) -> u64
    ensures { result ≡ pitch_of (version_number version) byte }
{
    match version {
        Version::First => 0,
        Version::Second => signed(byte),
    }
}

fn saved_of(version: Version, values: [u64; 80]) -> SavedSettings
    ensures { result ≡ saved_of (version_number version) values }
{
    SavedSettings {
        start: values[4],
        has_loop: has_loop(values[5], values[6]),
        loop_start: values[5],
        loop_end: values[6],
        reverse: values[7],
        rate: values[8],
        pitch: pitch_of(version, values[9]),
    }
}

fn show(version: Version, settings: SavedSettings) -> Result<Loaded, Refusal>
    ensures { loaded_of result ≡ shown (version_number version) settings }
{
    if !is_well_formed(settings) {
        return Err(Refusal::SavedField);
    }
    Ok(Loaded {
        settings,
        version: version.number(),
    })
}

// The version that a reader reads: by the third byte, if it knows more than version 1.
fn version_in(reader: u64, s: &[u8]) -> Version
    ensures { result ≡ version_in reader s.now }
{
    if reader != 1 && s.len() > 2 && s[2] == 2 {
        Version::Second
    } else {
        Version::First
    }
}

fn read(version: Version, s: &[u8]) -> Result<Parsed, Refusal>
    ensures { view s.now (length (layout version)) result
        ≡ steps (layout version) (good (Records.size (version_number version)) [] s.now) }
{
    byte_layout::read_rows(s, byte_layout::begin(0, version.size()), version.layout())
}

// Accepts any bytes. Reader 1 knows version 1 only. Any other number, and C may pass any, knows version 2 too.
pub fn load(reader: u64, s: &[u8]) -> Result<Loaded, Refusal>
    ensures { loaded_of result ≡ loaded reader s.now }
{
    let version = version_in(reader, s);
    let parsed = read(version, s)?;
    show(version, saved_of(version, parsed.values))
}

// ---- storing

// The version that these fields may be stored in by this number.
fn check_store(version: u64, s: SavedSettings, room: usize) -> Result<Version, Refusal>
    ensures refusal { number_of result ≡ store_refusal version s room }
    ensures version { IfOk result (λ v. version_number v ≡ version) }
{
    let version = match version {
        1 if s.pitch == 0 => Version::First,
        2 => Version::Second,
        _ => return Err(Refusal::SavedField),
    };
    if !is_well_formed(s) {
        return Err(Refusal::SavedField);
    }
    if room < version.size() {
        return Err(Refusal::Room);
    }
    Ok(version)
}

fn numbers(version: Version, s: SavedSettings) -> [u64; 80]
    ensures { take (length (layout version)) result ≡ Records.numbers version s }
{
    // The length is that of the bytes after it. Version 1 has no row for the pitch.
    let numbers = [
        94,
        113,
        version.number(),
        (version.size() - 4) as u64,
        s.start,
        s.loop_start,
        s.loop_end,
        s.reverse,
        s.rate,
        s.pitch % 256,
    ];
    let mut values = [0u64; 80];
    values[..10].copy_from_slice(&numbers);
    values
}

fn put(version: Version, s: SavedSettings, buffer: &mut [u8])
    requires { Records.size (version_number version) ≤ length buffer.old }
    ensures { buffer.new ≡ sets buffer.old 0 (encoded (version_number version) s) }
{
    let values = numbers(version, s);
    byte_layout::put_rows(buffer, 0, values, version.layout());
}

// Writes the record at the buffer's start, or returns a refusal and writes nothing. The version is a number, since a C
// caller gives any, and those other than 1 and 2 are refused.
pub fn store(version: u64, s: SavedSettings, buffer: &mut [u8]) -> Result<(), Refusal>
    ensures { (number_of result ≡ store_refusal version s (length buffer.old))
        × (buffer.new ≡ stored version s buffer.old) }
{
    let known = check_store(version, s, buffer.len())?;
    put(known, s, buffer);
    Ok(())
}

// An empty function whose contract collects the theorems, so that the checker must prove them.
pub fn promised()
    ensures { Promises }
{}
