// No code: laws of the slab profile (W-212, specs/): what it accepts and names, closed lists and their neighbours, and how large areas get. A crate has a function, so here is one.
#![tactic(auto)]

pub fn nothing() {}
