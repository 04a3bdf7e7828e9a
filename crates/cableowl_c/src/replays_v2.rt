// A replay for trace version 2 (docs/formats/TRACE.md, "Version 2").
ghost use Rattle.std.specs.Prelude.{◌≡◌};
ghost use Rattle.cableowl.specs.ReplaysV2.{blank_replay_v2, stepped_v2};

use cableowl::{CableowlReplay, CableowlReplayed};

// The replay of version 2 before the first record.
#[unsafe(no_mangle)]
pub extern "C" fn cableowl_replay_v2() -> CableowlReplay
    ensures { result ≡ blank_replay_v2 }
{
    cableowl::cableowl_replay_v2()
}

// Reads and plays the next record of a trace of version 2; returns what it did and the replay after it.
#[unsafe(no_mangle)]
pub extern "C" fn cableowl_replay_step_v2(
    replay: CableowlReplay,
    bytes: &[u8],
    ended: u32,
    sound: &mut [f32],
    given: &[f32],
    sounds: u32,
    out: &mut [f32],
) -> CableowlReplayed
    ensures { record { answer = result; sound = sound.new; samples = out.new }
        ≡ stepped_v2 replay bytes.now ended sound.old given.now sounds
        out.old }
{
    cableowl::cableowl_replay_step_v2(replay, bytes, ended, sound, given, sounds, out)
}
