// No code: what stays true of the lent memory behind any sequence of splits, whoever asks; `split_offices` says it of the calls, which name their office. `specs/Statements.antt` has
// the statements.
#![tactic(auto)]

pub fn nothing() {}
