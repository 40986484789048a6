// No code: what holds of courses within courses (W-213), over the definitions of `meaning_courses` alone: specs/Statements.antt. A crate has a function, so here is one.
#![tactic(auto)]

pub fn nothing() {}
