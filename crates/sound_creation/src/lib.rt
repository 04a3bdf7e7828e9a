// Creation: checks all settings, then makes the voice (kira's StaticSound::new, StaticSoundData::slice and
// num_frames).
#![tactic(auto)]

ghost use Rattle.std.specs.Prelude.{◌≡◌, ◌/◌, ◌%◌, ◌&&◌, leb, ltb, eqb, length};
ghost use Rattle.refusals.specs.Numbers.{number_of};
ghost use Rattle.sound_creation.specs.Creation.{
  ranged,
  allowed,
  setup_of,
  startable,
  refused_new,
  opened,
  transport_of,
  made,
  blank_sound,
  created_of,
  created,
};

use playback_position::{PlaybackPosition, Region};
use playback_state_manager::PlaybackState;
use refusals::Refusal;
use resampler::Resampler;
use sound_state::{Setup, StaticSound};
use sound_update::{Moving, Wraps};
use transport::Transport;

// The settings of a creation.
#[derive(Clone, Copy)]
pub struct Settings {
    pub sample_rate: u32,
    pub slice: Option<Region>,
    pub start_position: PlaybackPosition,
    pub loop_region: Option<Region>,
    pub reverse: bool,
    pub playback_rate: f64,
    pub start_waits: bool,
}

// The region in frames, over this many frames.
fn into_frames(
    region: Option<Region>,
    sample_rate: u32,
    num_frames: usize,
) -> Option<(usize, usize)>
    ensures { result ≡ ranged sample_rate num_frames region }
{
    region.map(|region| region.into_frames(sample_rate, num_frames))
}

fn is_well_formed(region: Option<Region>, sample_rate: u32, num_frames: usize) -> bool
    ensures { result ≡ allowed sample_rate num_frames region }
{
    region.is_none_or(|region| region.is_well_formed(sample_rate, num_frames))
}

// What creation fixes for a sound of this many samples.
fn setup_of(settings: Settings, samples: usize) -> Setup
    ensures { result ≡ setup_of samples settings }
{
    let slice = settings.slice;
    let num_frames = samples / 2;
    Setup {
        sample_rate: settings.sample_rate,
        num_frames,
        slice: into_frames(slice, settings.sample_rate, num_frames),
        reverse: settings.reverse,
    }
}

fn is_sample_rate(sample_rate: u32) -> bool
    ensures { result ≡ (ltb 0 sample_rate && leb sample_rate 768000) }
{
    (sample_rate > 0) & (sample_rate <= 768000)
}

// Whether the samples are whole frames, at least one and not too many.
fn is_sound(samples: usize) -> bool
    ensures { result ≡ (eqb (samples % 2) 0 && ltb 0 (samples / 2) && leb (samples / 2) 16777216) }
{
    (samples % 2 == 0) & (samples / 2 > 0) & (samples / 2 <= 16777216)
}

// Whether the start is inside the slice.
fn is_start(settings: Settings, num_frames: usize) -> bool
    ensures { result ≡ startable num_frames settings }
{
    let start = settings.start_position;
    start.is_finite_position() & (start.into_samples(settings.sample_rate) < num_frames)
}

// The lowest refusal that applies to a creation.
fn check(settings: Settings, samples: usize) -> Result<(), Refusal>
    ensures { number_of result ≡ refused_new samples settings }
{
    let sample_rate = settings.sample_rate;
    if !is_sample_rate(sample_rate) {
        return Err(Refusal::SampleRate);
    }
    if !is_sound(samples) {
        return Err(Refusal::FrameCount);
    }
    if !is_well_formed(settings.slice, sample_rate, samples / 2) {
        return Err(Refusal::Slice);
    }
    let setup = setup_of(settings, samples);
    let num_frames = setup.num_frames();
    if !is_start(settings, num_frames) {
        return Err(Refusal::StartPosition);
    }
    if !is_well_formed(settings.loop_region, sample_rate, num_frames) {
        return Err(Refusal::LoopRegion);
    }
    if !numbers::is_finite(settings.playback_rate) {
        return Err(Refusal::PlaybackRate);
    }
    Ok(())
}

// An accepted voice before its updates: at its first position, with an empty window.
fn open(settings: Settings, samples: usize) -> StaticSound
    requires { refused_new samples settings ≡ 0 }
    ensures { result ≡ opened (setup_of samples settings) (transport_of (setup_of samples settings) settings)
        settings.playback_rate settings.start_waits }
{
    let setup = setup_of(settings, samples);
    let num_frames = setup.num_frames();
    let start = settings.start_position;
    let loop_region = settings.loop_region;
    let transport = Transport::new(
        start.into_samples(settings.sample_rate),
        into_frames(loop_region, settings.sample_rate, num_frames),
        settings.reverse,
        num_frames,
    );
    let resampler = Resampler::new(transport.position);
    let moving = Moving {
        state: PlaybackState::Playing,
        transport,
        resampler,
        wraps: Wraps {
            forward: 0,
            backward: 0,
        },
    };
    StaticSound {
        setup,
        playback_rate: settings.playback_rate,
        started: !settings.start_waits,
        fractional_position: 0.0,
        moving,
    }
}

// Makes three updates, which fill the window, so that playback can start at once. By three calls: with a second caller
// of `update_positions` clang inlines it nowhere, and a block takes twice the time.
fn make(settings: Settings, sound: &[f32]) -> StaticSound
    requires { refused_new (length sound.now) settings ≡ 0 }
    ensures { result ≡ made sound.now settings }
{
    let opened = open(settings, sound.len());
    let slice = opened.slice();
    let first = opened.moving;
    let second = first.update_position(slice, sound);
    let third = second.update_position(slice, sound);
    let moving = third.update_position(slice, sound);
    StaticSound { moving, ..opened }
}

// The voice where there is none: Stopped, and every number 0.
pub fn blank() -> StaticSound
    ensures { result ≡ blank_sound }
{
    let setup = Setup {
        sample_rate: 0,
        num_frames: 0,
        slice: None,
        reverse: false,
    };
    let transport = Transport {
        position: 0,
        loop_region: None,
        playing: false,
    };
    let moving = Moving {
        state: PlaybackState::Stopped,
        transport,
        resampler: Resampler::new(0),
        wraps: Wraps {
            forward: 0,
            backward: 0,
        },
    };
    StaticSound {
        setup,
        playback_rate: 0.0,
        started: false,
        fractional_position: 0.0,
        moving,
    }
}

pub fn new(settings: Settings, sound: &[f32]) -> Result<StaticSound, Refusal>
    ensures { created_of result ≡ created sound.now settings }
{
    check(settings, sound.len())?;
    Ok(make(settings, sound))
}
