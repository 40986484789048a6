// No code: what `split_sequences` asks of the lent memory is met by the trial stone, which `specs/Stone.antt` lays out in words and floats.
// `specs/Statements.antt` has the statements.
#![tactic(auto)]

pub fn nothing() {}
