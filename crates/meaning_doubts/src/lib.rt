// No code: what is unchecked in a report, definitions (specs/) and theorems (proofs/). A crate has a function, so here is one.
#![tactic(auto)]

pub fn nothing() {}
