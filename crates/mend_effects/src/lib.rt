// No code: what the changes of a mending do to the model that the lent memory holds (W-208). `specs/Statements.antt` has what a reader asks; the others serve it.
#![tactic(auto)]

pub fn nothing() {}
