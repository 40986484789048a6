// No code: that the walk's list is the changes of a mending (W-208), theorems (specs/). A crate has a function, so here is one.
#![tactic(auto)]

pub fn nothing() {}
