// No code: mend back pointers (W-208), definitions and theorems (specs/). A crate has a function, so here is one.
#![tactic(auto)]

pub fn nothing() {}
