// Levels in tenths of a decibel below full level, 601 for silence: their amplitudes, and the ramp that fills a fade
// lane.
#![tactic(auto)]

ghost use Rattle.std.specs.Prelude.{◌≡◌, ◌<◌, ◌≤◌, length, IfOk};
ghost use Rattle.refusals.specs.Numbers.{number_of};
ghost use Rattle.decibels.specs.Levels as Levels;
ghost use Rattle.decibels.specs.Levels.{amplitude_answer};
ghost use Rattle.decibels.specs.Ramps.{level_at, frames, refusal, faded};
ghost use Rattle.decibels.specs.Promises.{Promises};

use refusals::Refusal;

mod table;

// An entry of the table is at most 2^24, so it is an f32 and its quotient is exact.
fn amplitude(level: u32) -> f32
    requires { level ≤ 601 }
    ensures { result ≡ Levels.amplitude level }
{
    if level < 601 {
        let e = table::all()[level as usize];
        (e as f32) / 16777216.0
    } else {
        0.0
    }
}

pub fn as_amplitude(level: u32) -> Result<f32, Refusal>
    ensures { result ≡ amplitude_answer level }
{
    if level > 601 {
        return Err(Refusal::Level);
    }
    Ok(amplitude(level))
}

// An accepted ramp, as `Ramp::new` makes it.
#[derive(Clone, Copy)]
struct Ramp {
    start: u32,
    end: u32,
    count: u32,
    ghost start_bound: { start ≤ 601 },
    ghost end_bound: { end ≤ 601 },
    ghost count_bound: { count ≤ 65536 },
}

impl Ramp {
    // For a lane with room for this many frames.
    fn new(start: u32, end: u32, count: u32, room: usize) -> Result<Ramp, Refusal>
        ensures refusal { number_of result ≡ refusal start end count room }
        ensures numbers { IfOk result (λ r. (r.start ≡ start) × (r.end ≡ end) × (r.count ≡ count)) }
        ensures whole { IfOk result (λ r. r.count ≡ room) }
    {
        if start > 601 || end > 601 {
            return Err(Refusal::Level);
        }
        if count < 1 || count > 65536 || count as usize != room {
            return Err(Refusal::Ramp);
        }
        Ok(Ramp { start, end, count })
    }

    // The level of a frame on the straight line from start to end, rounded down; a single frame has the end level.
    fn level_at(self, i: u32) -> u32
        requires { i < self.count }
        ensures { (result ≡ level_at self.start self.end self.count i) × (result ≤ 601) }
    {
        if self.count == 1 {
            return self.end;
        }
        let last = self.count - 1;
        let sum = self.start * (last - i) + self.end * i;
        sum / last
    }

    fn fill(self, lane: &mut [f32])
        requires { length lane.old ≡ self.count }
        ensures { lane.new ≡ frames self.start self.end self.count self.count }
    {
        for (i, frame) in lane.iter_mut().enumerate() {
            *frame = amplitude(self.level_at(i as u32));
        }
    }
}

// Writes the whole lane; if refused, nothing.
pub fn fade_ramp(start: u32, end: u32, count: u32, lane: &mut [f32]) -> Result<(), Refusal>
    ensures { (number_of result ≡ refusal start end count (length lane.old))
        × (lane.new ≡ faded start end count lane.old) }
{
    Ramp::new(start, end, count, lane.len())?.fill(lane);
    Ok(())
}

// An empty function whose contract collects the theorems, so that the checker must prove them.
pub fn promised()
    ensures { Promises }
{}
