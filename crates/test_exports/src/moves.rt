// A transport as plain numbers, and its moves. If a move's requirement is not met, the result is all zeros.
ghost use Rattle.std.specs.Prelude.{◌≡◌, cond, ltb};
ghost use Rattle.playback_position.specs.Positions.{ordered};
ghost use Rattle.transport.specs.Moves.{forward, backward, seek, reloop, begun};
ghost use Rattle.transport.specs.WellFormed.{well_formed_transport};
ghost use Rattle.test_exports.specs.Answers.{yes};
ghost use Rattle.test_exports.specs.Places.{range_of};
ghost use Rattle.test_exports.specs.Moves.{transport_of, plain_transport, nowhere};

use super::places::{PlainRange, range_of};
use transport::Transport;

// Playing if `playing` is not 0.
#[repr(C)]
#[derive(Clone, Copy)]
pub struct PlainTransport {
    pub position: u64,
    pub loop_region: PlainRange,
    pub playing: u32,
}

const NOWHERE: PlainTransport = PlainTransport {
    position: 0,
    loop_region: PlainRange {
        given: 0,
        start: 0,
        end: 0,
    },
    playing: 0,
};

impl From<PlainTransport> for Transport {
    ghost from_gives = { λ given transport. transport ≡ transport_of given };

    fn from(given: PlainTransport) -> Transport {
        Transport {
            position: given.position as usize,
            loop_region: range_of(given.loop_region),
            playing: super::is_yes(given.playing),
        }
    }
}

impl From<Transport> for PlainTransport {
    ghost from_gives = { λ transport plain. plain ≡ plain_transport transport };

    fn from(transport: Transport) -> PlainTransport {
        PlainTransport {
            position: transport.position as u64,
            loop_region: PlainRange::from(transport.loop_region),
            playing: u32::from(transport.playing),
        }
    }
}

// What a step back and a seek require.
fn is_ordered(loop_region: Option<(usize, usize)>) -> bool
    ensures { result ≡ ordered loop_region }
{
    match loop_region {
        None => true,
        Some((start, end)) => start < end,
    }
}

// What a step forward requires. sound_state has this test too, but private, and above the leaves exported here.
fn is_well_formed_transport(t: Transport, num_frames: usize) -> bool
    ensures { result ≡ well_formed_transport num_frames t }
{
    playback_position::is_within(t.loop_region, num_frames)
        & (!t.playing | (t.position < num_frames))
        & (t.position <= 4294967296)
}

#[unsafe(no_mangle)]
pub extern "C" fn cableowl_test_increment_position(
    t: PlainTransport,
    num_frames: u64,
) -> PlainTransport
    ensures { result ≡ cond (well_formed_transport num_frames (transport_of t))
        (plain_transport (forward num_frames (transport_of t))) nowhere }
{
    let given = Transport::from(t);
    if is_well_formed_transport(given, num_frames as usize) {
        PlainTransport::from(given.increment_position(num_frames as usize))
    } else {
        NOWHERE
    }
}

#[unsafe(no_mangle)]
pub extern "C" fn cableowl_test_decrement_position(t: PlainTransport) -> PlainTransport
    ensures { result ≡ cond (ordered (transport_of t).loop_region)
        (plain_transport (backward (transport_of t))) nowhere }
{
    let given = Transport::from(t);
    if is_ordered(given.loop_region) {
        PlainTransport::from(given.decrement_position())
    } else {
        NOWHERE
    }
}

#[unsafe(no_mangle)]
pub extern "C" fn cableowl_test_seek_to(
    t: PlainTransport,
    position: u64,
    num_frames: u64,
) -> PlainTransport
    ensures { result ≡ cond (ordered (transport_of t).loop_region)
        (plain_transport (seek num_frames (transport_of t) position)) nowhere }
{
    let given = Transport::from(t);
    if is_ordered(given.loop_region) {
        PlainTransport::from(given.seek_to(position as usize, num_frames as usize))
    } else {
        NOWHERE
    }
}

#[unsafe(no_mangle)]
pub extern "C" fn cableowl_test_set_loop_region(
    t: PlainTransport,
    loop_region: PlainRange,
) -> PlainTransport
    ensures { result ≡ plain_transport (reloop (transport_of t) (range_of loop_region)) }
{
    PlainTransport::from(Transport::from(t).set_loop_region(range_of(loop_region)))
}

#[unsafe(no_mangle)]
pub extern "C" fn cableowl_test_new_transport(
    start_position: u64,
    loop_region: PlainRange,
    reverse: u32,
    num_frames: u64,
) -> PlainTransport
    ensures { result ≡ cond (ltb start_position num_frames)
        (plain_transport (begun num_frames (yes reverse) (range_of loop_region) start_position)) nowhere }
{
    if start_position < num_frames {
        PlainTransport::from(Transport::new(
            start_position as usize,
            range_of(loop_region),
            super::is_yes(reverse),
            num_frames as usize,
        ))
    } else {
        NOWHERE
    }
}
