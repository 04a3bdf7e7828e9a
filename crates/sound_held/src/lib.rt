// A block of a started, advancing voice whose five numbers are given once: each applies to every frame.
#![tactic(auto)]

ghost use Rattle.std.specs.Prelude.{◌≡◌, ◌/◌, length};
ghost use Rattle.sound_lanes.specs.Lanes.{lanes_of, rows};
ghost use Rattle.sound_slow_path.specs.Plays.{plays, accepted, accepted_as};
ghost use Rattle.sound_slow_path.specs.FrameSteps.{Playable};
ghost use Rattle.sound_held.specs.Held.{held_lanes};

use sound_lanes::{Gains, Lanes};
use sound_slow_path::Processed;
use sound_state::StaticSound;
use std::slice::from_ref;

// The five numbers of every frame of a block.
#[derive(Clone, Copy, Debug, PartialEq)]
pub struct Held {
    pub gains: Gains,
    pub rate: f64,
}

impl Held {
    // The numbers as lanes of one frame.
    pub fn lanes(&self) -> Lanes<'_>
        ensures { lanes_of result ≡ held_lanes self.now 1 }
    {
        Lanes {
            fade: from_ref(&self.gains.fade),
            volume: from_ref(&self.gains.volume),
            left: from_ref(&self.gains.left),
            right: from_ref(&self.gains.right),
            rate: from_ref(&self.rate),
        }
    }
}

// Plays the block frame by frame. Its parameters stand side by side; static_sound says why.
pub fn play(voice: StaticSound, dt: f64, sound: &[f32], held: Held, out: &mut [f32]) -> Processed
    requires { Playable sound.now voice dt (held_lanes held (length out.old / 2)) (length out.old) }
    ensures { record { answer = accepted result; samples = out.new }
        ≡ accepted_as (plays sound.now dt (rows (held_lanes held (length out.old / 2))) voice) }
{
    let lanes = held.lanes();
    sound_slow_path::play_spread(voice, dt, sound, lanes, out)
}
