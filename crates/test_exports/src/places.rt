// Positions and regions as plain numbers, and their frames.
ghost use Rattle.std.specs.Prelude.{◌≡◌};
ghost use Rattle.playback_position.specs.Positions.{position_in_frames, region_in_frames, well_formed_region};
ghost use Rattle.test_exports.specs.Answers.{bit};
ghost use Rattle.test_exports.specs.Places.{position_of, end_of, region_of, range_of, plain_range};

use playback_position::{EndPosition, PlaybackPosition, Region};

// In seconds, or in samples if `in_seconds` is 0.
#[repr(C)]
#[derive(Clone, Copy)]
pub struct PlainPosition {
    pub in_seconds: u32,
    pub seconds: f64,
    pub samples: u64,
}

// To the end of audio if `end_given` is 0.
#[repr(C)]
#[derive(Clone, Copy)]
pub struct PlainRegion {
    pub start: PlainPosition,
    pub end_given: u32,
    pub end: PlainPosition,
}

// None if `given` is 0.
#[repr(C)]
#[derive(Clone, Copy)]
pub struct PlainRange {
    pub given: u32,
    pub start: u64,
    pub end: u64,
}

impl From<PlainPosition> for PlaybackPosition {
    ghost from_gives = { λ given position. position ≡ position_of given };

    fn from(given: PlainPosition) -> PlaybackPosition {
        match given.in_seconds {
            0 => PlaybackPosition::Samples(given.samples as usize),
            _ => PlaybackPosition::Seconds(given.seconds),
        }
    }
}

// A function: an end is made of two fields of a region.
fn end_of(given: u32, p: PlainPosition) -> EndPosition
    ensures { result ≡ end_of given p }
{
    match given {
        0 => EndPosition::EndOfAudio,
        _ => EndPosition::Custom(PlaybackPosition::from(p)),
    }
}

impl From<PlainRegion> for Region {
    ghost from_gives = { λ given region. region ≡ region_of given };

    fn from(given: PlainRegion) -> Region {
        Region {
            start: PlaybackPosition::from(given.start),
            end: end_of(given.end_given, given.end),
        }
    }
}

// A function: with a `From` each call would spell out `Option::<(usize, usize)>::from`.
pub fn range_of(range: PlainRange) -> Option<(usize, usize)>
    ensures { result ≡ range_of range }
{
    match range.given {
        0 => None,
        _ => Some((range.start as usize, range.end as usize)),
    }
}

impl From<Option<(usize, usize)>> for PlainRange {
    ghost from_gives = { λ range plain. plain ≡ plain_range range };

    fn from(range: Option<(usize, usize)>) -> PlainRange {
        match range {
            None => PlainRange {
                given: 0,
                start: 0,
                end: 0,
            },
            Some((start, end)) => PlainRange {
                given: 1,
                start: start as u64,
                end: end as u64,
            },
        }
    }
}

#[unsafe(no_mangle)]
pub extern "C" fn cableowl_test_into_samples(position: PlainPosition, sample_rate: u32) -> u64
    ensures { result ≡ position_in_frames sample_rate (position_of position) }
{
    PlaybackPosition::from(position).into_samples(sample_rate) as u64
}

#[unsafe(no_mangle)]
pub extern "C" fn cableowl_test_into_frames(
    region: PlainRegion,
    sample_rate: u32,
    num_frames: u64,
) -> PlainRange
    ensures { result ≡ plain_range (Some (region_in_frames sample_rate num_frames (region_of region))) }
{
    let frames = Region::from(region).into_frames(sample_rate, num_frames as usize);
    PlainRange::from(Some(frames))
}

#[unsafe(no_mangle)]
pub extern "C" fn cableowl_test_is_lawful(
    region: PlainRegion,
    sample_rate: u32,
    num_frames: u64,
) -> u32
    ensures { result ≡ bit (well_formed_region sample_rate num_frames (region_of region)) }
{
    u32::from(Region::from(region).is_well_formed(sample_rate, num_frames as usize))
}
