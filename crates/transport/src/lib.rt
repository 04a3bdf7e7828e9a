// The transport: position, loop, and whether it is playing. It is passed by value: each move returns the next
// transport.
#![tactic(auto)]

ghost use Rattle.std.specs.Prelude.{◌≡◌, ◌≤◌, ◌<◌, T};
ghost use Rattle.numbers.specs.Frames.{most};
ghost use Rattle.playback_position.specs.Positions.{ordered};
ghost use Rattle.transport.specs.Moves.{
  under,
  over,
  landed,
  forward,
  backward,
  at_end,
  at_start,
  wraps,
  seek,
  reloop,
  begun,
};
ghost use Rattle.transport.specs.WellFormed.{WellFormedTransport};

#[derive(Clone, Copy, Debug, PartialEq, Eq)]
pub struct Transport {
    pub position: usize,
    // The frames that are looped. The end is exclusive. Four functions below ask that the start is below the end. A
    // type that says so would exclude states that C passes: their two numbers may be any, and refusal 1 answers them.
    pub loop_region: Option<(usize, usize)>,
    pub playing: bool,
}

// p, wrapped into the loop if it is at or past the loop's end. `from_start` is its mirror image, with another sum and
// no case without a division, so one function for both would be two behind a flag.
fn below_end(loop_region: Option<(usize, usize)>, p: usize) -> usize
    requires { T (ordered loop_region) }
    ensures { result ≡ under loop_region p }
{
    match loop_region {
        Some((start, end)) if p >= end => {
            // A step lands exactly on the end, so the common case needs no division.
            if p == end {
                start
            } else {
                start + (p - start) % (end - start)
            }
        }
        _ => p,
    }
}

// p, wrapped into the loop if it is below the loop's start.
fn from_start(loop_region: Option<(usize, usize)>, p: usize) -> usize
    requires { T (ordered loop_region) }
    ensures { result ≡ over loop_region p }
{
    match loop_region {
        Some((start, end)) if p < start => end - 1 - (start - p - 1) % (end - start),
        _ => p,
    }
}

// Whether p is at or past the loop's end. This test and the next are a line each: one with a flag would be longer.
fn is_at_end(loop_region: Option<(usize, usize)>, p: usize) -> bool
    ensures { result ≡ at_end loop_region p }
{
    loop_region.is_some_and(|(_, end)| p >= end)
}

// Whether p is at or before the loop's start.
fn is_at_start(loop_region: Option<(usize, usize)>, p: usize) -> bool
    ensures { result ≡ at_start loop_region p }
{
    loop_region.is_some_and(|(start, _)| p <= start)
}

impl Transport {
    pub fn new(
        start_position: usize,
        loop_region: Option<(usize, usize)>,
        reverse: bool,
        num_frames: usize,
    ) -> Transport
        requires { start_position < num_frames }
        ensures { result ≡ begun num_frames reverse loop_region start_position }
    {
        let position = if reverse {
            num_frames - 1 - start_position
        } else {
            start_position
        };
        Transport {
            position,
            loop_region,
            playing: true,
        }
    }

    pub fn set_loop_region(self, loop_region: Option<(usize, usize)>) -> Transport
        ensures { result ≡ reloop self loop_region }
    {
        Transport {
            loop_region,
            ..self
        }
    }

    // Stops playing if the position is at or past the sound's end.
    fn ended_from(mut self, num_frames: usize) -> Transport
        ensures { result ≡ landed num_frames self self.position }
    {
        if self.position >= num_frames {
            self.playing = false;
        }
        self
    }

    pub fn increment_position(mut self, num_frames: usize) -> Transport
        requires { WellFormedTransport num_frames self }
        ensures { result ≡ forward num_frames self }
    {
        if self.playing {
            self.position = below_end(self.loop_region, self.position + 1);
            return self.ended_from(num_frames);
        }
        self
    }

    // Not the forward step with a flag: it ends before the first frame, and its loop wraps at the other side.
    pub fn decrement_position(mut self) -> Transport
        requires { T (ordered self.loop_region) }
        ensures { result ≡ backward self }
    {
        if self.playing {
            match self.loop_region {
                Some((start, end)) if self.position <= start => {
                    // A step starts exactly at the start, so the common case needs no division.
                    self.position = if self.position == start {
                        end - 1
                    } else {
                        end - 1 - (start - self.position) % (end - start)
                    };
                }
                _ if self.position == 0 => self.playing = false,
                _ => self.position -= 1,
            }
        }
        self
    }

    // Whether the next step wraps. It tests as the step itself does, so that the compiler merges the two tests.
    pub fn wraps(self, backwards: bool) -> bool
        requires { self.position ≤ most }
        ensures { result ≡ wraps backwards self }
    {
        self.playing
            && if backwards {
                is_at_start(self.loop_region, self.position)
            } else {
                is_at_end(self.loop_region, self.position + 1)
            }
    }

    pub fn seek_to(mut self, position: usize, num_frames: usize) -> Transport
        requires { T (ordered self.loop_region) }
        ensures { result ≡ seek num_frames self position }
    {
        self.position = if position > self.position {
            below_end(self.loop_region, position)
        } else {
            from_start(self.loop_region, position)
        };
        self.ended_from(num_frames)
    }
}
