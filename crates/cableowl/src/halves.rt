// The C interface of a half's bytes: crate saved_loops. A half is nineteen words: hall (A is 0, B is 1), frames of
// the sound, number of changes, then start and end of its eight slots.
ghost use Rattle.std.specs.Prelude.{◌≡◌, length};
ghost use Rattle.saved_loops.specs.Records.{store_refusal, stored, loaded};

use crate::{number_of, value_or};

#[unsafe(no_mangle)]
pub extern "C" fn cableowl_store_half(half: &[u64; 19], names: &[u8], buffer: &mut [u8]) -> u32
    ensures { (result ≡ store_refusal half.now (length names.now) (length buffer.old))
        × (buffer.new ≡ stored half.now names.now buffer.old) }
{
    number_of(saved_loops::store(*half, names, buffer))
}

#[unsafe(no_mangle)]
pub extern "C" fn cableowl_load_half(bytes: &[u8], half: &mut [u64; 19]) -> u32
    ensures { (result ≡ (loaded bytes.now).refusal)
        × (half.new ≡ (loaded bytes.now).words) }
{
    let (words, refusal) = value_or([0; 19], saved_loops::load(bytes));
    *half = words;
    refusal
}
