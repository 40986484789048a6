// No code: courses within courses (W-213), definitions and their evaluations (specs/). A crate has a function, so here is one.
#![tactic(auto)]

pub fn nothing() {}
