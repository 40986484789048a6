// No code: the reason and the entity of every refusal, definitions and theorems (specs/). A crate has a function, so here is one.
#![tactic(auto)]

pub fn nothing() {}
