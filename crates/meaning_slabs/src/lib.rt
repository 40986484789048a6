// No code: the slab profile (W-212), definitions and their evaluations (specs/). A crate has a function, so here is one.
#![tactic(auto)]

pub fn nothing() {}
