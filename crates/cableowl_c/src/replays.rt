// A replay: the next record of a trace, read and played (docs/formats/TRACE.md).
ghost use Rattle.std.specs.Prelude.{◌≡◌};
ghost use Rattle.cableowl.specs.Replays.{blank_replay, stepped_c};

use cableowl::{CableowlReplay, CableowlReplayed};

// The replay before the first record.
#[unsafe(no_mangle)]
pub extern "C" fn cableowl_replay() -> CableowlReplay
    ensures { result ≡ blank_replay }
{
    cableowl::cableowl_replay()
}

// Reads and plays the next record of a trace; returns what it did and the replay after it.
#[unsafe(no_mangle)]
pub extern "C" fn cableowl_replay_step(
    replay: CableowlReplay,
    bytes: &[u8],
    ended: u32,
    sound: &mut [f32],
    out: &mut [f32],
) -> CableowlReplayed
    ensures { record { answer = result; sound = sound.new; samples = out.new }
        ≡ stepped_c replay bytes.now ended sound.old out.old }
{
    cableowl::cableowl_replay_step(replay, bytes, ended, sound, out)
}
