// The lanes of a block, with a number for each frame or held, and what the fast path does with either.
ghost use Rattle.std.specs.Prelude.{◌≡◌, ◌*◌, ◌/◌, ◌≤◌, T, length};
ghost use Rattle.sound_lanes.specs.Lanes.{sized};
ghost use Rattle.sound_fast_reading.specs.Scans.{begun, Scannable, Scanned};
ghost use Rattle.sound_gains.specs.Gained.{gained};
ghost use Rattle.sound_slow_path.specs.Plays.{accepted};
ghost use Rattle.sound_slow_path.specs.FrameSteps.{Playable};
ghost use Rattle.sound_fast_path.specs.BlockLanes.{block_lanes};
ghost use Rattle.sound_fast_path.specs.Scans.{played_from};

use crate::scan;
use sound_fast_reading::{Reached, Way};
use sound_held::Held;
use sound_lanes::Lanes;
use sound_slow_path::Processed;
use sound_state::StaticSound;

// The lanes of a block: a number for each frame, or held lanes and how many frames they apply to.
#[derive(Clone, Copy)]
pub enum BlockLanes<'a> {
    Each(Lanes<'a>),
    Held(Held, usize),
}

impl BlockLanes<'_> {
    pub fn frames(self) -> usize
        ensures { result ≡ length (block_lanes self.entry).rate }
    {
        match self {
            BlockLanes::Each(lanes) => lanes.rate.len(),
            BlockLanes::Held(_, frames) => frames,
        }
    }

    // Reads along the track, to its end or the block's.
    pub(crate) fn scan(self, way: Way, sound: &[f32], out: &mut [f32]) -> Reached
        requires scannable { Scannable sound.now way (block_lanes self).rate }
        requires scanned { Scanned sound.now way (block_lanes self).rate (begun way) out.old }
        ensures { Scanned sound.now way (block_lanes self.entry).rate result out.new }
    {
        match self {
            BlockLanes::Each(lanes) => scan(way, sound, lanes.rate, out),
            BlockLanes::Held(held, frames) => sound_fast_held::scan_held(
                way, sound, held.rate, frames, out,
            ),
        }
    }

    // Multiplies the first n frames of the output by their gains.
    pub(crate) fn apply_gains(self, n: usize, out: &mut [f32])
        requires sized { T (sized (block_lanes self)) }
        requires n_in_bounds { n ≤ length (block_lanes self).rate }
        requires out_in_bounds { 2 * n ≤ length out.old }
        ensures { out.new
            ≡ gained (block_lanes self.entry).fade (block_lanes self.entry).volume (block_lanes self.entry).left
            (block_lanes self.entry).right n out.old }
    {
        match self {
            BlockLanes::Each(lanes) => sound_gains::by_frame(lanes, n, out),
            BlockLanes::Held(held, _) => sound_gains::once(held.gains, n, out),
        }
    }

    // Plays frame by frame, from the frame `next` on.
    pub(crate) fn play_from(
        self,
        voice: StaticSound,
        dt: f64,
        sound: &[f32],
        next: usize,
        out: &mut [f32],
    ) -> Processed
        requires playable { Playable sound.now voice dt (block_lanes self) (length out.old) }
        requires next_in_bounds { next ≤ length (block_lanes self).rate }
        ensures { record { answer = accepted result; samples = out.new }
            ≡ played_from sound.now dt (block_lanes self.entry) next voice out.old }
    {
        let k = 2 * next;
        let rest = &mut out[k..];
        match self {
            BlockLanes::Each(lanes) => {
                let lanes = Lanes {
                    fade: &lanes.fade[next..],
                    volume: &lanes.volume[next..],
                    left: &lanes.left[next..],
                    right: &lanes.right[next..],
                    rate: &lanes.rate[next..],
                };
                sound_slow_path::play(voice, dt, sound, lanes, rest)
            }
            BlockLanes::Held(held, _) => sound_held::play(voice, dt, sound, held, rest),
        }
    }
}
