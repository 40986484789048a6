// No code: what writing and reading an image do to the model that the lent memory holds (W-202), theorems (specs/). A crate has a function, so here is one.
#![tactic(auto)]

pub fn nothing() {}
