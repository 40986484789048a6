// No code: that narrower intervals give narrower ones, definitions (specs/) and theorems (proofs/). A crate has a function, so here is one.
#![tactic(auto)]

pub fn nothing() {}
