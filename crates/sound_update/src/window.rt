// The window split into frames and frame indices, and put together again: two structs of scalars for the loop of
// `update_positions`, so that no frame index is in the same vector as the samples. Two arrays were tried: they would be
// parallel too, and were no faster.
ghost use Rattle.std.specs.Prelude.{◌≡◌};
ghost use Rattle.sound_update.specs.Windows.{frames_of, numbers_of, window_of};

use frame::Frame;
use resampler::{RecentFrame, Resampler};

// The window's four frames.
#[derive(Clone, Copy)]
pub struct Frames {
    pub a: Frame,
    pub b: Frame,
    pub c: Frame,
    pub d: Frame,
}

// The window's frame indices, and the count.
#[derive(Clone, Copy)]
pub struct Numbers {
    pub a: usize,
    pub b: usize,
    pub c: usize,
    pub d: usize,
    pub time_until_empty: usize,
}

pub(crate) fn frames_of(window: Resampler) -> Frames
    ensures { result ≡ frames_of window }
{
    let [a, b, c, d] = window.frames;
    Frames {
        a: a.frame,
        b: b.frame,
        c: c.frame,
        d: d.frame,
    }
}

pub(crate) fn numbers_of(window: Resampler) -> Numbers
    ensures { result ≡ numbers_of window }
{
    let [a, b, c, d] = window.frames;
    Numbers {
        a: a.frame_index,
        b: b.frame_index,
        c: c.frame_index,
        d: d.frame_index,
        time_until_empty: window.time_until_empty,
    }
}

pub(crate) fn window_of(frames: Frames, numbers: Numbers) -> Resampler
    ensures { result ≡ window_of frames numbers }
{
    Resampler {
        frames: [
            RecentFrame {
                frame: frames.a,
                frame_index: numbers.a,
            },
            RecentFrame {
                frame: frames.b,
                frame_index: numbers.b,
            },
            RecentFrame {
                frame: frames.c,
                frame_index: numbers.c,
            },
            RecentFrame {
                frame: frames.d,
                frame_index: numbers.d,
            },
        ],
        time_until_empty: numbers.time_until_empty,
    }
}
