// The part of the sound that a voice plays.
ghost use Rattle.std.specs.Prelude.{◌≡◌, length};
ghost use Rattle.static_sound.specs.Entries.{stretch_of, stretch_at, sample_at};

use sound_state::StaticSound;

// The part of the sound's samples, and where it is: the slice's, or all of them; if refused, the empty part at their
// start.
pub fn stretch(voice: StaticSound, sound: &[f32]) -> &[f32]
    ensures result_value { result.now ≡ stretch_of sound.now voice }
    ensures ref_ptr_value { result.ref_ptr ≡ sample_at sound.entry.ref_ptr (stretch_at (length sound.now) voice) }
{
    if !voice.is_well_formed(sound.len()) {
        return &sound[..0];
    }
    match voice.setup.slice {
        None => sound,
        Some((start, end)) => &sound[2 * start..2 * end],
    }
}
