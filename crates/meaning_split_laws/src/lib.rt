// No code: what splits keep, over the definitions of `meaning`, theorems (specs/). A crate has a function, so here is one.
#![tactic(auto)]

pub fn nothing() {}
