// No code: that a record which is told as missing is, on the parent that names it, and that nothing of the other office's records is told, theorems (specs/). A crate has a function, so here is one.
#![tactic(auto)]

pub fn nothing() {}
