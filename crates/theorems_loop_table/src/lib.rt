// An empty function whose contract collects all theorems on two halls at one table, so that the checker must prove
// them.
#![tactic(auto)]

ghost use Rattle.theorems_loop_table.specs.Promises.{Promises};

pub fn promised()
    ensures { Promises }
{}
