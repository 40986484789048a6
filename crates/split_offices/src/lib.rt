// No code: what stays true of the lent memory behind any sequence of splits by both offices (W-206). `specs/Statements.antt` has the statements.
#![tactic(auto)]

pub fn nothing() {}
