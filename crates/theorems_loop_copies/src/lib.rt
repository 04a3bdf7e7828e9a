// An empty function whose contract collects all theorems on two boxes, so that the checker must prove them.
#![tactic(auto)]

ghost use Rattle.theorems_loop_copies.specs.Promises.{Promises};

pub fn promised()
    ensures { Promises }
{}
