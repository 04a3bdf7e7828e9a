// Saved settings over eight words: start, has_loop, loop_start, loop_end, reverse, the rate's bits, pitch, version.
ghost use Rattle.std.specs.Prelude.{◌≡◌, length};
ghost use Rattle.saved_settings.specs.Records.{store_refusal, stored, loaded};
ghost use Rattle.cableowl.specs.Saved.{saved_in, version_in, words_of, settings_from};

use c_inputs::CableowlSettings;

#[unsafe(no_mangle)]
pub extern "C" fn cableowl_store_settings(saved: &[u64; 8], buffer: &mut [u8]) -> u32
    ensures { (result ≡ store_refusal (version_in saved.now) (saved_in saved.now)
        (length buffer.old))
        × (buffer.new
        ≡ stored (version_in saved.now) (saved_in saved.now) buffer.old) }
{
    cableowl::cableowl_store_settings(saved, buffer)
}

// Reader 1 knows version 1 only, any other reader also version 2.
#[unsafe(no_mangle)]
pub extern "C" fn cableowl_load_settings(reader: u32, bytes: &[u8], saved: &mut [u64; 8]) -> u32
    ensures { (result ≡ (loaded reader bytes.now).refusal)
        × (saved.new ≡ words_of (loaded reader bytes.now)) }
{
    cableowl::cableowl_load_settings(reader, bytes, saved)
}

// The settings for creation: the whole sound, the saved start and loop in frames, and the rate with its pitch.
#[unsafe(no_mangle)]
pub extern "C" fn cableowl_settings_of(saved: &[u64; 8], sample_rate: u32) -> CableowlSettings
    ensures { result ≡ settings_from saved.now sample_rate }
{
    cableowl::cableowl_settings_of(saved, sample_rate)
}
