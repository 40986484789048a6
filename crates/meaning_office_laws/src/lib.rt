// No code: what splits by two offices keep, and that one office alone is told what it was told before (W-206), definitions and theorems (specs/). A crate has a function, so here is one.
#![tactic(auto)]

pub fn nothing() {}
