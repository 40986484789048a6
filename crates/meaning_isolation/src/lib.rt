// No code: which records the calls about a body may read, and that nothing else makes a difference (W-206), definitions and theorems (specs/). A crate has a function, so here is one.
#![tactic(auto)]

pub fn nothing() {}
