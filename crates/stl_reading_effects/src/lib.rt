// No code: what reading binary STL leaves in the lent memory is the model that W-210 builds (specs/). A crate has a function, so here is one.
#![tactic(auto)]

pub fn nothing() {}
