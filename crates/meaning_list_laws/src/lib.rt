// No code: laws of the plain functions of `meaning` (specs/), which no reader of a promise needs. A crate has a function, so here is one.
#![tactic(auto)]

pub fn nothing() {}
