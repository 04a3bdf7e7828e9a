// Plays a trace from standard input: one line per block on standard output (docs/formats/TRACE.md).
// `trace_replay::advance` plays each record; this file only reads and writes. The input can have any length: a window
// moves over it that holds a whole record or the input's end.
#![tactic(auto)]

ghost use Rattle.std.specs.Prelude.{◌-◌, ◌≤◌, length, IfSome};
ghost use Rattle.replay.specs.Windows.{Held};

use std::io::{Print, Read, Stdin, Stdout};
use trace_replay::Run;

// The window on the input: its bytes are `at` to `end` of a buffer whose first byte has the offset `base` in the
// trace. `ended` means that the input has ended.
#[derive(Clone, Copy, Debug, PartialEq, Eq)]
pub struct Window {
    pub at: usize,
    pub end: usize,
    pub base: u64,
    pub ended: bool,
}

#[derive(Clone, Copy)]
pub struct Play {
    pub run: Run,
    pub window: Window,
}

// Reads until `buf` is full, the input ends or a read fails, and returns how many bytes it put at the start of `buf`.
fn read_full(input: Stdin, buf: &mut [u8]) -> usize
    ensures { result ≤ length buf.new }
{
    let mut input = input;
    let mut done = 0;
    // A `while` and no `for`: a read gives any number of bytes.
    while done < buf.len() {
        let Ok(n) = input.read(&mut buf[done..]) else {
            return done;
        };
        if n == 0 {
            return done;
        }
        done += n;
    }
    done
}

// Moves the unread bytes to the front, and reads more after them.
fn refill(input: Stdin, bytes: &mut [u8], spare: &mut [u8], w: Window) -> Window
    requires { (w.at ≤ w.end) × (w.end ≤ length bytes.old) × (w.end - w.at ≤ length spare.old) }
    ensures { Held result bytes.new }
{
    let n = w.end - w.at;
    byte_layout::copy(bytes, w.at, w.end, spare, 0);
    byte_layout::copy(spare, 0, n, bytes, 0);
    let got = read_full(input, &mut bytes[n..]);
    let end = n + got;
    Window {
        at: 0,
        end,
        base: w.base.wrapping_add(w.at as u64),
        ended: end < bytes.len(),
    }
}

// Plays one record and prints its line. None if the run is over. The buffers are parameters side by side, here and
// below: a struct of them would be borrowed in parts, to read and to write.
fn play_one(
    output: Stdout,
    p: Play,
    bytes: &[u8],
    sound: &mut [f32],
    line: &mut [u8],
) -> Option<Play>
    requires { Held p.window bytes.now × (128 ≤ length sound.old) × (p.run.samples ≤ length sound.old)
        × (139 ≤ length line.old) }
    ensures { IfSome result (λ q. Held q.window bytes.now × (q.run.samples ≤ length sound.new)) }
{
    let window = p.window;
    let place = window.base.wrapping_add(window.at as u64);
    let played = trace_replay::advance(p.run, &bytes[..window.end], window.at, place, sound, line);
    let _ = output.write_all(&line[..played.written]);
    let next = played.next?;
    Some(Play {
        run: played.run,
        window: Window { at: next, ..window },
    })
}

// Reads more if the window may end inside a record (no record has more than 575 bytes), then plays one record.
fn advance(
    input: Stdin,
    output: Stdout,
    p: Play,
    bytes: &mut [u8],
    spare: &mut [u8],
    sound: &mut [f32],
    line: &mut [u8],
) -> Option<Play>
    requires { Held p.window bytes.old × (1024 ≤ length spare.old) × (128 ≤ length sound.old)
        × (p.run.samples ≤ length sound.old) × (139 ≤ length line.old) }
    ensures { IfSome result (λ q. Held q.window bytes.new × (q.run.samples ≤ length sound.new)) }
{
    let window = p.window;
    if window.ended || 1024 <= window.end - window.at {
        return play_one(output, p, bytes, sound, line);
    }
    let window = refill(input, bytes, spare, window);
    play_one(output, Play { window, ..p }, bytes, sound, line)
}

fn replay(
    input: Stdin,
    output: Stdout,
    bytes: &mut [u8],
    spare: &mut [u8],
    sound: &mut [f32],
    line: &mut [u8],
)
    requires { (1024 ≤ length spare.old) × (128 ≤ length sound.old) × (139 ≤ length line.old) }
{
    let window = Window {
        at: 0,
        end: 0,
        base: 0,
        ended: false,
    };
    let mut p = Play {
        run: trace_replay::begin(),
        window,
    };
    // A bound that no trace reaches, so that the check sees an end.
    'records: for _ in 0..u64::MAX {
        match advance(input, output, p, bytes, spare, sound, line) {
            Some(next) => p = next,
            None => return,
        }
    }
}

fn main(rt: HostRuntime) {
    let mut bytes = [0u8; 65536];
    let mut spare = [0u8; 1024];
    let mut sound = [0.0f32; 128];
    let mut line = [0u8; 160];
    replay(
        rt.stdin(),
        rt.stdout(),
        &mut bytes,
        &mut spare,
        &mut sound,
        &mut line,
    );
}
