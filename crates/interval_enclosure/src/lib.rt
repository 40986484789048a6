// No code: that the intervals of `interval_arithmetic` enclose, definitions (specs/) and theorems (proofs/). A crate has a function, so here is one.
#![tactic(auto)]

pub fn nothing() {}
