// The fast path at the loop's edge: plays two frames per iteration so that they vectorise, each position wrapped into
// the loop. It stops at the track's end, when fewer than two frames are left, or when many positions are ahead
// without a wrap (sound_fast_straight is faster there).
#![tactic(auto)]

ghost use Rattle.std.specs.Prelude.{◌≡◌, T};
ghost use Rattle.numbers.specs.Words.{proper};
ghost use Rattle.sound_track.specs.Tracks.{On};
ghost use Rattle.sound_track.specs.Contiguous.{InsideSound};
ghost use Rattle.sound_fast_reading.specs.Scans.{read_on, Scannable, Scanned};

use frame::{Frame, interpolate_frame};
use sound_fast_reading::{Rates, Reached, Way};
use sound_track::{Direction, Track};

// With this many steps ahead without a wrap, sound_fast_straight goes on.
const MANY: usize = 28;

// The reading at a position: of the four frames from there on.
fn read<D: Direction>(sound: &[f32], track: Track, at: usize, fractional_position: f64) -> Frame
    requires inside_sound { InsideSound sound.now track }
    requires on { On track at }
    requires t { T (proper fractional_position) }
    requires backwards_value { track.backwards ≡ D.backwards }
    ensures { result ≡ read_on sound.now track at fractional_position }
{
    let b = D::next(track, at);
    let c = D::next(track, b);
    let d = D::next(track, c);
    interpolate_frame(
        track.frame_at(sound, at),
        track.frame_at(sound, b),
        track.frame_at(sound, c),
        track.frame_at(sound, d),
        numbers::narrow(fractional_position),
    )
}

// Along a track in its direction D. A while loop: it begins at the frame that `from` names, goes by two frames, and
// stops where the track ends or no step wraps for long.
pub fn wrapping<D: Direction, R: Rates>(
    way: Way,
    from: Reached,
    sound: &[f32],
    rates: R,
    out: &mut [f32],
) -> Reached
    requires scannable { Scannable sound.now way (R.list rates) }
    requires scanned { Scanned sound.now way (R.list rates) from out.old }
    requires backwards_value { way.track.backwards ≡ D.backwards }
    ensures { Scanned sound.now way (R.list rates) result out.new }
{
    let track = way.track;
    let mut r = from;
    while r.next + 1 < rates.count() {
        let i = r.next;
        let a = sound_fast_reading::moved(
            way.sample_rate,
            way.dt,
            r.fractional_position,
            rates.rate(i),
        );
        let b = sound_fast_reading::moved(way.sample_rate, way.dt, a.fraction, rates.rate(i + 1));
        if !D::has_room(track, r.at, a.steps + b.steps) {
            return r;
        }
        let half = D::after_steps(track, r.at, a.steps);
        let x = read::<D>(sound, track, r.at, r.fractional_position);
        let y = read::<D>(sound, track, half, a.fraction);
        sound_fast_reading::store(out, 2 * i, x);
        sound_fast_reading::store(out, 2 * i + 2, y);
        r = Reached {
            at: D::after_steps(track, half, b.steps),
            fractional_position: b.fraction,
            steps: r.steps + a.steps + b.steps,
            next: i + 2,
        };
        if D::is_straight(track, r.at, MANY) {
            return r;
        }
    }
    r
}
