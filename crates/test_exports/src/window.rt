// The window of four as plain numbers: what is pushed and read, and the reported frame index.
ghost use Rattle.std.specs.Prelude.{◌≡◌};
ghost use Rattle.frame.specs.Frames.{interpolated};
ghost use Rattle.resampler.specs.Windows.{fresh, push, reading, current_frame_index, is_empty};
ghost use Rattle.test_exports.specs.Answers.{bit};
ghost use Rattle.test_exports.specs.Windows.{
  frame_of,
  entry_of,
  window_of,
  frame_given,
  plain_frame,
  plain_reading,
  plain_entry,
  plain_window,
};

use frame::{Frame, interpolate_frame};
use resampler::{Reading, RecentFrame, Resampler};

#[repr(C)]
#[derive(Clone, Copy)]
pub struct PlainFrame {
    pub left: f32,
    pub right: f32,
}

#[repr(C)]
#[derive(Clone, Copy)]
pub struct PlainReading {
    pub frame: PlainFrame,
    pub count: u64,
}

#[repr(C)]
#[derive(Clone, Copy)]
pub struct PlainEntry {
    pub frame: PlainFrame,
    pub frame_index: u64,
}

#[repr(C)]
#[derive(Clone, Copy)]
pub struct PlainWindow {
    pub entries: [PlainEntry; 4],
    pub time_until_empty: u64,
}

impl From<PlainFrame> for Frame {
    ghost from_gives = { λ given frame. frame ≡ frame_of given };

    fn from(given: PlainFrame) -> Frame {
        Frame {
            left: given.left,
            right: given.right,
        }
    }
}

impl From<Frame> for PlainFrame {
    ghost from_gives = { λ frame plain. plain ≡ plain_frame frame };

    fn from(frame: Frame) -> PlainFrame {
        PlainFrame {
            left: frame.left,
            right: frame.right,
        }
    }
}

impl From<Reading> for PlainReading {
    ghost from_gives = { λ reading plain. plain ≡ plain_reading reading };

    fn from(reading: Reading) -> PlainReading {
        PlainReading {
            frame: PlainFrame::from(reading.frame),
            count: reading.count as u64,
        }
    }
}

impl From<PlainEntry> for RecentFrame {
    ghost from_gives = { λ given entry. entry ≡ entry_of given };

    fn from(given: PlainEntry) -> RecentFrame {
        RecentFrame {
            frame: Frame::from(given.frame),
            frame_index: given.frame_index as usize,
        }
    }
}

impl From<RecentFrame> for PlainEntry {
    ghost from_gives = { λ entry plain. plain ≡ plain_entry entry };

    fn from(entry: RecentFrame) -> PlainEntry {
        PlainEntry {
            frame: PlainFrame::from(entry.frame),
            frame_index: entry.frame_index as u64,
        }
    }
}

impl From<PlainWindow> for Resampler {
    ghost from_gives = { λ given window. window ≡ window_of given };

    fn from(given: PlainWindow) -> Resampler {
        let a = RecentFrame::from(given.entries[0]);
        let b = RecentFrame::from(given.entries[1]);
        let c = RecentFrame::from(given.entries[2]);
        let d = RecentFrame::from(given.entries[3]);
        Resampler {
            frames: [a, b, c, d],
            time_until_empty: given.time_until_empty as usize,
        }
    }
}

impl From<Resampler> for PlainWindow {
    ghost from_gives = { λ window plain. plain ≡ plain_window window };

    fn from(window: Resampler) -> PlainWindow {
        let a = PlainEntry::from(window.frames[0]);
        let b = PlainEntry::from(window.frames[1]);
        let c = PlainEntry::from(window.frames[2]);
        let d = PlainEntry::from(window.frames[3]);
        PlainWindow {
            entries: [a, b, c, d],
            time_until_empty: window.time_until_empty as u64,
        }
    }
}

fn given_frame(given: u32, f: PlainFrame) -> Option<Frame>
    ensures { result ≡ frame_given given f }
{
    if given == 0 {
        None
    } else {
        Some(Frame::from(f))
    }
}

#[unsafe(no_mangle)]
pub extern "C" fn cableowl_test_new_window(starting_frame_index: u64) -> PlainWindow
    ensures { result ≡ plain_window (fresh starting_frame_index) }
{
    PlainWindow::from(Resampler::new(starting_frame_index as usize))
}

// No frame is pushed if `given` is 0.
#[unsafe(no_mangle)]
pub extern "C" fn cableowl_test_push_frame(
    w: PlainWindow,
    given: u32,
    frame: PlainFrame,
    frame_index: u64,
) -> PlainWindow
    ensures { result ≡ plain_window (push (window_of w) (frame_given given frame) frame_index) }
{
    PlainWindow::from(Resampler::from(w).push_frame(
        given_frame(given, frame),
        frame_index as usize,
    ))
}

#[unsafe(no_mangle)]
pub extern "C" fn cableowl_test_get(w: PlainWindow, fractional_position: f32) -> PlainReading
    ensures { result ≡ plain_reading (reading (window_of w) fractional_position) }
{
    PlainReading::from(Resampler::from(w).get(fractional_position))
}

#[unsafe(no_mangle)]
pub extern "C" fn cableowl_test_current_frame_index(w: PlainWindow) -> u64
    ensures { result ≡ current_frame_index (window_of w) }
{
    Resampler::from(w).current_frame_index() as u64
}

#[unsafe(no_mangle)]
pub extern "C" fn cableowl_test_empty(w: PlainWindow) -> u32
    ensures { result ≡ bit (is_empty (window_of w)) }
{
    u32::from(Resampler::from(w).empty())
}

#[unsafe(no_mangle)]
pub extern "C" fn cableowl_test_interpolate_frame(
    previous: PlainFrame,
    current: PlainFrame,
    next_1: PlainFrame,
    next_2: PlainFrame,
    fraction: f32,
) -> PlainFrame
    ensures { result ≡ plain_frame
        (interpolated (frame_of previous) (frame_of current) (frame_of next_1) (frame_of next_2) fraction) }
{
    PlainFrame::from(interpolate_frame(
        Frame::from(previous),
        Frame::from(current),
        Frame::from(next_1),
        Frame::from(next_2),
        fraction,
    ))
}
