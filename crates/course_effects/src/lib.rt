// No code: what the edits of a course table do to the courses that it holds (W-213): specs/Statements.antt. A crate has a function, so here is one.
#![tactic(auto)]

pub fn nothing() {}
