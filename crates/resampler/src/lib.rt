// The window: the four most recent frames, each with its frame index, and how many pushes until all are silent.
#![tactic(auto)]

ghost use Rattle.std.specs.Prelude.{◌≡◌, ◌-◌};
ghost use Rattle.resampler.specs.Windows.{fresh, push, reading, current_frame_index, is_empty};

use frame::{Frame, interpolate_frame};

#[derive(Clone, Copy, Debug)]
pub struct RecentFrame {
    pub frame: Frame,
    pub frame_index: usize,
}

// A reading: the frame, and the window's count.
#[derive(Clone, Copy, Debug)]
pub struct Reading {
    pub frame: Frame,
    pub count: usize,
}

#[derive(Clone, Copy, Debug)]
pub struct Resampler {
    pub frames: [RecentFrame; 4],
    pub time_until_empty: usize,
}

impl Resampler {
    pub fn new(starting_frame_index: usize) -> Resampler
        ensures { result ≡ fresh starting_frame_index }
    {
        let recent = RecentFrame {
            frame: Frame::ZERO,
            frame_index: starting_frame_index,
        };
        Resampler {
            frames: [recent; 4],
            time_until_empty: 0,
        }
    }

    pub fn push_frame(self, frame: Option<Frame>, frame_index: usize) -> Resampler
        ensures { result ≡ push self frame frame_index }
    {
        let [_, a, b, c] = self.frames;
        match frame {
            Some(frame) => Resampler {
                frames: [a, b, c, RecentFrame { frame, frame_index }],
                time_until_empty: 4,
            },
            None => {
                let frame = Frame::ZERO;
                Resampler {
                    frames: [a, b, c, RecentFrame { frame, frame_index }],
                    time_until_empty: self.time_until_empty.saturating_sub(1),
                }
            }
        }
    }

    pub fn get(self, fractional_position: f32) -> Reading
        ensures { result ≡ reading self fractional_position }
    {
        let [a, b, c, d] = self.frames;
        Reading {
            frame: interpolate_frame(a.frame, b.frame, c.frame, d.frame, fractional_position),
            count: self.time_until_empty,
        }
    }

    pub fn current_frame_index(self) -> usize
        ensures { result ≡ current_frame_index self }
    {
        self.frames[1].frame_index
    }

    pub fn empty(self) -> bool
        ensures { result ≡ is_empty self }
    {
        self.time_until_empty == 0
    }
}
