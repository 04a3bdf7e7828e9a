// Multiplies the readings in the output by their gains, in place: fade, then volume, then the channel's gain.
#![tactic(auto)]

ghost use Rattle.std.specs.Prelude.{◌≡◌, true, ◌+◌, ◌*◌, ◌≤◌, ◌<◌, length, replicate};
ghost use Rattle.numbers.specs.Words.{one};
ghost use Rattle.sound_lanes.specs.Lanes.{lanes_of, Covers};
ghost use Rattle.sound_gains.specs.Gained.{scaled_at, gained};

use frame::Frame;
use sound_lanes::{Gains, Lanes};

// Multiplies frame i of the output by these gains.
fn gain_by(gains: Gains, i: usize, out: &mut [f32])
    requires i_in_bounds { 2 * i + 1 < length out.old }
    requires i_bound { i < 4096 }
    ensures { out.new ≡ scaled_at gains i out.old out.old }
{
    let read = Frame {
        left: out[2 * i],
        right: out[2 * i + 1],
    };
    let x = gains.scale(read);
    sound_fast_reading::store(out, 2 * i, x);
}

// Multiplies the first n frames of the output by their gains; clang vectorises it. Not inlined: inside the block the
// loop has too few registers, and takes 1 instruction a frame more.
#[inline(never)]
pub fn by_frame(lanes: Lanes<'_>, n: usize, out: &mut [f32])
    requires covers { Covers n (lanes_of lanes) }
    requires n_in_bounds { 2 * n ≤ length out.old }
    requires n_bound { n ≤ 4096 }
    ensures { out.new
        ≡ gained lanes.entry.fade.now lanes.entry.volume.now lanes.entry.left.now lanes.entry.right.now n
        out.old }
{
    for i in 0..n {
        gain_by(lanes.gains(i), i, out);
    }
}

fn is_one(x: f32) -> bool
    ensures { result ≡ true → x ≡ one }
{
    x == 1.0
}

// Multiplies the first n frames of the output by the same gains. Gains of 1 change no sample, so nothing is computed.
// What it shares with by_frame is gain_by: a function of both over a closure would be longer than the two loops.
pub fn once(gains: Gains, n: usize, out: &mut [f32])
    requires n_in_bounds { 2 * n ≤ length out.old }
    requires n_bound { n ≤ 4096 }
    ensures { out.new
        ≡ gained (replicate n gains.fade) (replicate n gains.volume) (replicate n gains.left)
        (replicate n gains.right) n out.old }
{
    if is_one(gains.fade) & is_one(gains.volume) & is_one(gains.left) & is_one(gains.right) {
        return;
    }
    for i in 0..n {
        gain_by(gains, i, out);
    }
}
