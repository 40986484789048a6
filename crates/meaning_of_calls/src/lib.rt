// No code: each call answers what a definition of `meaning` says, by its name. `specs/Statements.antt` has a statement for each call.
#![tactic(auto)]

pub fn nothing() {}
