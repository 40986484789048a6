// No code: the stone sheet in whole numbers (W-201), definitions and their evaluations (specs/). A crate has a function, so here is one.
#![tactic(auto)]

pub fn nothing() {}
