// The fast path where no step wraps: the positions are consecutive. Plays four frames per iteration, then one by one,
// as long as the window's four frames and the steps stay before the track's end.
#![tactic(auto)]

ghost use Rattle.std.specs.Prelude.{◌≡◌, ◌+◌, ◌≤◌, ◌<◌, T, length, get_or};
ghost use Rattle.std.specs.Float.{nan};
ghost use Rattle.std.specs.Float.Ieee.{lt};
ghost use Rattle.numbers.specs.Words.{positive_zero, proper, advance};
ghost use Rattle.numbers.specs.Lists.{all};
ghost use Rattle.sound_lanes.specs.Lanes.{slow};
ghost use Rattle.sound_track.specs.Tracks.{far, On};
ghost use Rattle.sound_track.specs.Contiguous.{InsideSound};
ghost use Rattle.sound_fast_reading.specs.Moves.{Move};
ghost use Rattle.sound_fast_reading.specs.Scans.{read_on, Scannable, Scanned};

use frame::{Frame, interpolate_frame};
use numbers::Stepped;
use sound_fast_reading::{Rates, Reached, Way};
use sound_track::{Backward, Direction, Forward, Track};
use sound_update::frame_in;

// The steps of four frames.
#[derive(Clone, Copy)]
pub struct Moves {
    pub first: Stepped,
    pub second: Stepped,
    pub third: Stepped,
    pub fourth: Stepped,
}

// The steps of frames i to i + 3.
fn four_moves<R: Rates>(
    sample_rate: u32,
    dt: f64,
    fractional_position: f64,
    rates: R,
    i: usize,
) -> Moves
    requires t { T (proper fractional_position) }
    requires t_2 { T (lt positive_zero dt) }
    requires t_3 { T (all (slow sample_rate dt) (R.list rates)) }
    requires i_in_bounds { i + 3 < length (R.list rates) }
    requires rate_len_bound { length (R.list rates) < 8192 }
    ensures fact { Move fractional_position (advance sample_rate (get_or (R.list rates) i nan) dt)
        result.first }
    ensures fact_2 { Move result.first.fraction (advance sample_rate (get_or (R.list rates) (i + 1) nan) dt)
        result.second }
    ensures fact_3 { Move result.second.fraction (advance sample_rate (get_or (R.list rates) (i + 2) nan) dt)
        result.third }
    ensures fact_4 { Move result.third.fraction (advance sample_rate (get_or (R.list rates) (i + 3) nan) dt)
        result.fourth }
{
    let first = sound_fast_reading::moved(sample_rate, dt, fractional_position, rates.rate(i));
    let second = sound_fast_reading::moved(sample_rate, dt, first.fraction, rates.rate(i + 1));
    let third = sound_fast_reading::moved(sample_rate, dt, second.fraction, rates.rate(i + 2));
    let fourth = sound_fast_reading::moved(sample_rate, dt, third.fraction, rates.rate(i + 3));
    Moves {
        first,
        second,
        third,
        fourth,
    }
}

// A direction in which the frames of a reading are consecutive. Each adds to, or takes from, one index in the sound:
// an index of its own for each frame costs four to five instructions a frame, and Arm has none to spare
// (docs/DECISIONS.md, "The block's speed").
pub trait Straight: Direction {
    // The reading at a position: of the four frames from there on.
    fn read(sound: &[f32], track: Track, at: usize, fractional_position: f64) -> Frame
        requires inside_sound { InsideSound sound.now track }
        requires on { On track at }
        requires far_enough { 3 ≤ far track at }
        requires t { T (proper fractional_position) }
        requires backwards_value { track.backwards ≡ Self.backwards }
        ensures { result ≡ read_on sound.now track at fractional_position };
}

impl Straight for Forward {
    fn read(sound: &[f32], track: Track, at: usize, fractional_position: f64) -> Frame {
        let p = track.start + at;
        interpolate_frame(
            frame_in(sound, p),
            frame_in(sound, p + 1),
            frame_in(sound, p + 2),
            frame_in(sound, p + 3),
            numbers::narrow(fractional_position),
        )
    }
}

impl Straight for Backward {
    fn read(sound: &[f32], track: Track, at: usize, fractional_position: f64) -> Frame {
        let p = track.start + at;
        interpolate_frame(
            frame_in(sound, p),
            frame_in(sound, p - 1),
            frame_in(sound, p - 2),
            frame_in(sound, p - 3),
            numbers::narrow(fractional_position),
        )
    }
}

// Four frames per iteration. A while loop: it begins at the frame that `from` names, goes by four frames, and stops
// before a step that wraps.
pub fn fours<D: Straight, R: Rates>(
    way: Way,
    from: Reached,
    sound: &[f32],
    rates: R,
    out: &mut [f32],
) -> Reached
    requires scannable { Scannable sound.now way (R.list rates) }
    requires scanned { Scanned sound.now way (R.list rates) from out.old }
    requires backwards_value { way.track.backwards ≡ D.backwards }
    ensures { Scanned sound.now way (R.list rates) result out.new }
{
    let track = way.track;
    // Variables of their own and no return in the loop: a Reached costs an instruction more a frame, and Arm has none
    // to spare.
    let mut at = from.at;
    let mut fractional_position = from.fractional_position;
    let mut steps = from.steps;
    let mut i = from.next;
    while i + 3 < rates.count() {
        let m = four_moves(way.sample_rate, way.dt, fractional_position, rates, i);
        let n1 = m.first.steps;
        let n2 = n1 + m.second.steps;
        let n3 = n2 + m.third.steps;
        let n4 = n3 + m.fourth.steps;
        if !D::is_straight(track, at, n4) {
            break;
        }
        let w = D::read(sound, track, at, fractional_position);
        let x = D::read(
            sound,
            track,
            D::straight_on(track, at, n1),
            m.first.fraction,
        );
        let y = D::read(
            sound,
            track,
            D::straight_on(track, at, n2),
            m.second.fraction,
        );
        let z = D::read(
            sound,
            track,
            D::straight_on(track, at, n3),
            m.third.fraction,
        );
        sound_fast_reading::store(out, 2 * i, w);
        sound_fast_reading::store(out, 2 * i + 2, x);
        sound_fast_reading::store(out, 2 * i + 4, y);
        sound_fast_reading::store(out, 2 * i + 6, z);
        at = D::straight_on(track, at, n4);
        fractional_position = m.fourth.fraction;
        steps += n4;
        i += 4;
    }
    Reached {
        at,
        fractional_position,
        steps,
        next: i,
    }
}

// One frame per iteration. A while loop: it begins at the frame that `from` names, and stops before a step that wraps.
pub fn ones<D: Straight, R: Rates>(
    way: Way,
    from: Reached,
    sound: &[f32],
    rates: R,
    out: &mut [f32],
) -> Reached
    requires scannable { Scannable sound.now way (R.list rates) }
    requires scanned { Scanned sound.now way (R.list rates) from out.old }
    requires backwards_value { way.track.backwards ≡ D.backwards }
    ensures { Scanned sound.now way (R.list rates) result out.new }
{
    let track = way.track;
    let mut r = from;
    while r.next < rates.count() {
        let i = r.next;
        let m = sound_fast_reading::moved(
            way.sample_rate,
            way.dt,
            r.fractional_position,
            rates.rate(i),
        );
        if !D::is_straight(track, r.at, m.steps) {
            return r;
        }
        let x = D::read(sound, track, r.at, r.fractional_position);
        sound_fast_reading::store(out, 2 * i, x);
        r = Reached {
            at: D::straight_on(track, r.at, m.steps),
            fractional_position: m.fraction,
            steps: r.steps + m.steps,
            next: i + 1,
        };
    }
    r
}
