// No code: what holds of the tolerance rule in either version (W-211), definitions (specs/) and theorems (proofs/). A crate has a function, so here is one.
#![tactic(auto)]

pub fn nothing() {}
