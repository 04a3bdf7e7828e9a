// An empty function whose contract collects all theorems on replayed traces, so that the checker must prove them.
#![tactic(auto)]

ghost use Rattle.theorems_replay.specs.Promises.{Promises};

pub fn promised()
    ensures { Promises }
{}
