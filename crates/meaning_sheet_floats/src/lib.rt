// No code: where the float volume and the stone sheet's whole number are the same (W-201), definitions and theorems (specs/). A crate has a function, so here is one.
#![tactic(auto)]

pub fn nothing() {}
