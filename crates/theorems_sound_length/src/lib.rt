// An empty function whose contract collects the theorems about two sounds of equal length.
#![tactic(auto)]

ghost use Rattle.theorems_sound_length.specs.Promises.{Promises};

pub fn promised()
    ensures { Promises }
{}
