// No code: what number a float is, and the laws of floats as numbers, definitions and theorems (specs/). A crate has a function, so here is one.
#![tactic(auto)]

pub fn nothing() {}
