// An empty function whose contract collects all theorems, so that the checker must prove them.
#![tactic(auto)]

ghost use Rattle.theorems.specs.Promises.{Promises};

pub fn promised()
    ensures { Promises }
{}
