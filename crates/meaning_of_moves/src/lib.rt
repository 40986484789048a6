// No code: that a stone that is moved is taken in on a sheet as before (W-214), over lent memory, definitions and theorems (specs/). A crate has a function, so here is one.
#![tactic(auto)]

pub fn nothing() {}
