// The marked examples of docs/assurance/RULES.md about the leaves that no theorem states: each is run, printed and
// compared. N = 10 and loop (3, 6) unless stated otherwise. 1 means yes.
#![tactic(auto)]

ghost use Rattle.std.specs.Prelude.{◌≡◌, ◌<◌};
ghost use Rattle.test_leaf_examples.specs.Places.{at, plain};

use playback_position::{EndPosition, PlaybackPosition, Region};
use playback_state_manager::PlaybackState;
use std::io;
use transport::Transport;

const N: usize = 10;

// test_sound_examples has the same tally: a crate of its own for it would be longer than its two fields and one method.
#[derive(Clone, Copy)]
struct Tally {
    examples: u64,
    differ: u64,
}

impl Tally {
    // Prints an example and its result, and counts it.
    fn show(&mut self, rt: &impl Print, name: &str, got: u64, expected: u64) -> io::Result<()> {
        self.examples = self.examples.saturating_add(1);
        if got == expected {
            return println!(rt; "{name}: {got} ok");
        }
        self.differ = self.differ.saturating_add(1);
        println!(rt; "{name}: {got} differs")
    }
}

// Playing at p in the loop (start, end).
fn playing_at(p: usize, start: usize, end: usize) -> Transport
    ensures { result ≡ at p start end }
{
    Transport {
        position: p,
        loop_region: Some((start, end)),
        playing: true,
    }
}

fn backward(p: usize, start: usize, end: usize) -> Transport
    requires { start < end }
{
    playing_at(p, start, end).decrement_position()
}

fn seek_9_to_8() -> Transport {
    playing_at(9, 3, 6).seek_to(8, N)
}

// Playing at p with no loop.
fn unlooped_at(p: usize) -> Transport
    ensures { result ≡ plain p }
{
    Transport {
        position: p,
        loop_region: None,
        playing: true,
    }
}

fn seek_to_10_then_2() -> Transport {
    unlooped_at(5).seek_to(10, N).seek_to(2, N)
}

fn forward_in_a_loop_of_one() -> Transport {
    playing_at(4, 4, 5).increment_position(N)
}

fn show_moves(rt: &impl Print, tally: &mut Tally) -> io::Result<()> {
    let moved = backward(8, 3, 6);
    tally.show(rt, "backward from 8", moved.position as u64, 7)?;
    let moved = seek_9_to_8();
    tally.show(rt, "seek 9 to 8", moved.position as u64, 8)?;
    let moved = seek_to_10_then_2();
    tally.show(rt, "no loop, seek to 10 then 2", moved.position as u64, 2)?;
    tally.show(rt, "and is playing", u64::from(moved.playing), 0)?;
    let moved = forward_in_a_loop_of_one();
    tally.show(rt, "loop (4, 5), forward from 4", moved.position as u64, 4)?;
    let moved = backward(4, 4, 5);
    tally.show(rt, "loop (4, 5), backward from 4", moved.position as u64, 4)
}

fn is_well_formed_loop(start: usize, end: usize) -> u64 {
    let region = Region {
        start: PlaybackPosition::Samples(start),
        end: EndPosition::Custom(PlaybackPosition::Samples(end)),
    };
    u64::from(region.is_well_formed(1, N))
}

fn show_places(rt: &impl Print, tally: &mut Tally) -> io::Result<()> {
    tally.show(
        rt,
        "loop (4, 4) is well formed",
        is_well_formed_loop(4, 4),
        0,
    )?;
    tally.show(
        rt,
        "loop (4, 11) is well formed",
        is_well_formed_loop(4, 11),
        0,
    )?;
    tally.show(
        rt,
        "loop (0, 10) is well formed",
        is_well_formed_loop(0, 10),
        1,
    )?;
    let start = PlaybackPosition::Seconds(2.5).into_samples(1);
    tally.show(rt, "2.5 s at 1 Hz, start", start as u64, 3)?;
    tally.show(rt, "2.5 s at 1 Hz, seek", numbers::cut(2.5) as u64, 2)
}

fn state_number(state: PlaybackState) -> u64 {
    u64::from(u32::from(state))
}

fn show_states(rt: &impl Print, tally: &mut Tally) -> io::Result<()> {
    tally.show(rt, "Playing", state_number(PlaybackState::Playing), 0)?;
    tally.show(rt, "Pausing", state_number(PlaybackState::Pausing), 1)?;
    tally.show(rt, "Paused", state_number(PlaybackState::Paused), 2)?;
    tally.show(
        rt,
        "WaitingToResume",
        state_number(PlaybackState::WaitingToResume),
        3,
    )?;
    tally.show(rt, "Resuming", state_number(PlaybackState::Resuming), 4)?;
    tally.show(rt, "Stopping", state_number(PlaybackState::Stopping), 5)?;
    tally.show(rt, "Stopped", state_number(PlaybackState::Stopped), 6)
}

// 1 - 2^-25, which lies half way between 1 and the f32 below it.
fn narrows_to_one() -> bool {
    numbers::narrow(0.9999999701976776123046875) == 1.0
}

fn main(rt: HostRuntime) -> io::Result<()> {
    let mut tally = Tally {
        examples: 0,
        differ: 0,
    };
    show_moves(&rt, &mut tally)?;
    show_places(&rt, &mut tally)?;
    show_states(&rt, &mut tally)?;
    tally.show(
        &rt,
        "1 - 2^-25 narrows to 1",
        u64::from(narrows_to_one()),
        1,
    )?;
    let Tally { examples, differ } = tally;
    println!(rt; "{examples} examples, {differ} differ")
}
