// Reads a fixed list of scenarios from standard input, compares each call with what kira's own code returned, and
// counts the differences. The list has one number per line; docs/formats/LISTS.md has its layout.
#![tactic(auto)]

mod calls;
mod input;
mod states;

use calls::Answer;
use sound_state::StaticSound;
use std::io;
use std::io::{BufReader, Read};

// The largest number of records of a list.
const MOST: u64 = 1_000_000;

// What is kept from record to record: the voice, how much of the sound is passed, and the counts.
#[derive(Clone, Copy)]
struct Replay {
    voice: StaticSound,
    lent: usize,
    scenarios: u64,
    calls: u64,
    differ: u64,
}

impl Replay {
    // After a call: keeps its state, and counts.
    fn answered(self, voice: StaticSound, same: bool) -> Replay {
        let calls = self.calls.saturating_add(1);
        if same {
            Replay {
                voice,
                calls,
                ..self
            }
        } else {
            Replay {
                voice,
                calls,
                differ: self.differ.saturating_add(1),
                ..self
            }
        }
    }

    // The kind of a record is the list's number, and a list may have any.
    fn call(self, from: &mut impl Read, kind: u64, sound: &[f32]) -> Replay {
        let voice = self.voice;
        let made = match kind {
            4 => calls::create(from, sound),
            5 => calls::command(from, voice, sound),
            6 => calls::block(from, voice, sound, false),
            7 => calls::block(from, voice, sound, true),
            8 => Answer {
                voice,
                same: calls::stretch(from, voice, sound),
            },
            _ => Answer { voice, same: false },
        };
        self.answered(made.voice, made.same)
    }

    // Records that set something without a call: a scenario's sound, the state, how much of the sound is passed.
    fn set(self, from: &mut impl Read, kind: u64, sound: &mut [f32]) -> Replay {
        match kind {
            1 => {
                let lent = input::floats(from, sound);
                Replay {
                    lent,
                    scenarios: self.scenarios.saturating_add(1),
                    ..self
                }
            }
            2 => {
                let voice = states::next(from);
                Replay { voice, ..self }
            }
            _ => {
                let lent = input::index(from);
                Replay { lent, ..self }
            }
        }
    }

    // One record.
    fn take(self, from: &mut impl Read, kind: u64, sound: &mut [f32]) -> Replay {
        if kind < 4 {
            return self.set(from, kind, sound);
        }
        let lent = input::least(self.lent, sound.len());
        self.call(from, kind, &sound[..lent])
    }
}

fn begin() -> Replay {
    let voice = sound_creation::blank();
    Replay {
        voice,
        lent: 0,
        scenarios: 0,
        calls: 0,
        differ: 0,
    }
}

fn replay_all(from: &mut impl Read) -> Replay {
    let mut sound = [0.0f32; 32];
    let mut replay = begin();
    for _ in 0..MOST {
        let kind = input::next(from);
        if kind == 0 {
            return replay;
        }
        replay = replay.take(from, kind, &mut sound);
    }
    replay
}

fn main(rt: HostRuntime) -> io::Result<()> {
    let mut from = BufReader::new(rt.alloc(), rt.reader())?;
    let r = replay_all(&mut from);
    println!(rt;
        "{} scenarios, {} calls, {} differ",
        r.scenarios, r.calls, r.differ
    )
}
