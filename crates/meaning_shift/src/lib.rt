// No code: that moving a stone does not change its weight (W-214), definitions (specs/) and theorems (proofs/). A crate has a function, so here is one.
#![tactic(auto)]

pub fn nothing() {}
