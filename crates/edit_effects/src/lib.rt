// No code: what each insert and each set of a record does to the model (`edit_inserts`, `edit_sets`; model.rs, `RawEditor`).
// `specs/Statements.antt` says it.
#![tactic(auto)]

pub fn nothing() {}
