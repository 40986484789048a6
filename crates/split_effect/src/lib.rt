// No code: what a split does to the model, and that the memory stays readable. `specs/Statements.antt` has the statements.
#![tactic(auto)]

pub fn nothing() {}
