// The C entries of saved settings: crates saved_settings and semitones over eight words: start, has_loop, loop_start,
// loop_end, reverse, the rate's bits, pitch, version.
ghost use Rattle.std.specs.Prelude.{◌≡◌, length, Ok};
ghost use Rattle.saved_settings.specs.Records.{store_refusal, stored, loaded, loaded_of};
ghost use Rattle.cableowl.specs.Saved.{saved_in, version_in, words_of, rate_of, tag_of, frame_at, settings_from};

use crate::number_of;
use c_inputs::{CableowlPlace, CableowlRegion, CableowlSettings};
use saved_settings::{Loaded, SavedSettings};

// Functions and no `From`: the eight words are C's, and saved_settings does not know them.
fn saved_in(words: &[u64; 8]) -> SavedSettings
    ensures { result ≡ saved_in words.now }
{
    SavedSettings {
        start: words[0],
        has_loop: words[1],
        loop_start: words[2],
        loop_end: words[3],
        reverse: words[4],
        rate: words[5],
        pitch: words[6],
    }
}

fn words_of(l: Loaded) -> [u64; 8]
    ensures { result ≡ words_of (loaded_of (Ok l)) }
{
    let s = l.settings;
    [
        s.start,
        s.has_loop,
        s.loop_start,
        s.loop_end,
        s.reverse,
        s.rate,
        s.pitch,
        l.version,
    ]
}

#[unsafe(no_mangle)]
pub extern "C" fn cableowl_store_settings(saved: &[u64; 8], buffer: &mut [u8]) -> u32
    ensures { (result ≡ store_refusal (version_in saved.now) (saved_in saved.now)
        (length buffer.old))
        × (buffer.new
        ≡ stored (version_in saved.now) (saved_in saved.now) buffer.old) }
{
    let version = saved[7];
    number_of(saved_settings::store(version, saved_in(saved), buffer))
}

// Reader 1 knows version 1 only, any other reader also version 2.
#[unsafe(no_mangle)]
pub extern "C" fn cableowl_load_settings(reader: u32, bytes: &[u8], saved: &mut [u64; 8]) -> u32
    ensures { (result ≡ (loaded reader bytes.now).refusal)
        × (saved.new ≡ words_of (loaded reader bytes.now)) }
{
    match saved_settings::load(reader as u64, bytes) {
        Ok(loaded) => {
            let words = words_of(loaded);
            *saved = words;
            0
        }
        Err(refusal) => {
            *saved = [0; 8];
            u32::from(refusal)
        }
    }
}

// The held rate; NaN, which creation refuses, if the rate is not finite or the pitch is not -24 to 24.
fn rate_of(bits: u64, pitch: u64) -> f64
    ensures { result ≡ rate_of bits pitch }
{
    if bits % 9223372036854775808 < 9218868437227405312 {
        semitones::raised(f64::from_bits(bits), pitch)
    } else {
        f64::NAN
    }
}

// A tag of C, which is a number there: 0 or 1 unchanged, any other number becomes 2.
fn tag_of(word: u64) -> u32
    ensures { result ≡ tag_of word }
{
    word.min(2) as u32
}

fn frame(samples: u64) -> CableowlPlace
    ensures { result ≡ frame_at samples }
{
    CableowlPlace {
        seconds: 0.0,
        samples,
        kind: 1,
    }
}

// The settings for creation: the whole sound, the saved start and loop in frames, and the rate with its pitch.
#[unsafe(no_mangle)]
pub extern "C" fn cableowl_settings_of(saved: &[u64; 8], sample_rate: u32) -> CableowlSettings
    ensures { result ≡ settings_from saved.now sample_rate }
{
    let start = frame(saved[0]);
    let loop_region = CableowlRegion {
        start: frame(saved[2]),
        end: frame(saved[3]),
    };
    let slice = CableowlRegion {
        start: frame(0),
        end: frame(0),
    };
    CableowlSettings {
        sample_rate,
        has_slice: 0,
        has_loop: tag_of(saved[1]),
        reverse: tag_of(saved[4]),
        start_waits: 0,
        playback_rate: rate_of(saved[5], saved[6]),
        start,
        slice,
        loop_region,
    }
}
