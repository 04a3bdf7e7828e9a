// The seven states by their numbers, and their changes. A number above 6 counts as 6, and an answer above 2 as 2.
ghost use Rattle.std.specs.Prelude.{◌≡◌};
ghost use Rattle.playback_state_manager.specs.States.{number, advancing, pausing, resuming, stopping, settled};
ghost use Rattle.playback_state_manager.specs.declared.PlaybackState.TheVariants.{Stopped};
ghost use Rattle.test_exports.specs.Answers.{bit, yes};
ghost use Rattle.test_exports.specs.States.{state_of, answer_of};

use playback_state_manager::{PlaybackState, StartAnswer};

// A function, since `TryFrom` refuses a number above 6.
fn state_of(n: u32) -> PlaybackState
    ensures { result ≡ state_of n }
{
    PlaybackState::try_from(n).unwrap_or(PlaybackState::Stopped)
}

// A function: c_inputs takes an unknown number for still waiting, this for never, so the type has no single `From`.
fn answer_of(n: u32) -> StartAnswer
    ensures { result ≡ answer_of n }
{
    match n {
        0 => StartAnswer::Waiting,
        1 => StartAnswer::Now,
        _ => StartAnswer::Never,
    }
}

#[unsafe(no_mangle)]
pub extern "C" fn cableowl_test_number(state: u32) -> u32
    ensures { result ≡ number (state_of state) }
{
    u32::from(state_of(state))
}

#[unsafe(no_mangle)]
pub extern "C" fn cableowl_test_is_advancing(state: u32) -> u32
    ensures { result ≡ bit (advancing (state_of state)) }
{
    u32::from(state_of(state).is_advancing())
}

#[unsafe(no_mangle)]
pub extern "C" fn cableowl_test_pause(state: u32) -> u32
    ensures { result ≡ number (pausing (state_of state)) }
{
    u32::from(state_of(state).pause())
}

#[unsafe(no_mangle)]
pub extern "C" fn cableowl_test_resume(state: u32, waits: u32) -> u32
    ensures { result ≡ number (resuming (yes waits) (state_of state)) }
{
    u32::from(state_of(state).resume(super::is_yes(waits)))
}

#[unsafe(no_mangle)]
pub extern "C" fn cableowl_test_stop(state: u32) -> u32
    ensures { result ≡ number (stopping (state_of state)) }
{
    u32::from(state_of(state).stop())
}

#[unsafe(no_mangle)]
pub extern "C" fn cableowl_test_mark_as_stopped(state: u32) -> u32
    ensures { result ≡ number Stopped }
{
    u32::from(state_of(state).mark_as_stopped())
}

// The answer is 0 for still waiting, 1 for now, 2 for never.
#[unsafe(no_mangle)]
pub extern "C" fn cableowl_test_update(state: u32, finished: u32, resume: u32) -> u32
    ensures { result ≡ number (settled (yes finished) (answer_of resume) (state_of state)) }
{
    let after = state_of(state).update(super::is_yes(finished), answer_of(resume));
    u32::from(after)
}
