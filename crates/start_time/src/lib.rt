// A block's signal for the sound's start: an answer, or a due tick with the current tick, on a 32-bit counter that
// wraps.
#![tactic(auto)]

ghost use Rattle.std.specs.Prelude.{◌≡◌};
ghost use Rattle.start_time.specs.Ticks.{reached, answering};

use playback_state_manager::StartAnswer;

// The start signal of a block.
#[derive(Clone, Copy, Debug, PartialEq, Eq)]
pub enum StartSignal {
    Answer(StartAnswer),
    // the tick at which the start is due, and the current tick
    Tick(u32, u32),
}

// Whether a due tick is reached: now minus due, wrapped to 32 bits, is below half the range.
fn is_reached(due: u32, now: u32) -> bool
    ensures { result ≡ reached due now }
{
    now.wrapping_sub(due) < 2147483648
}

impl StartSignal {
    // The answer that the signal means: a due tick that is reached means now, any other still waiting.
    pub fn answer(self) -> StartAnswer
        ensures { result ≡ answering self }
    {
        match self {
            StartSignal::Answer(answer) => answer,
            StartSignal::Tick(due, now) if is_reached(due, now) => StartAnswer::Now,
            StartSignal::Tick(_, _) => StartAnswer::Waiting,
        }
    }
}
