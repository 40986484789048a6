// No code: what the checker finds of a body that was read (W-210), and what is written of it again, definitions (specs/) and theorems (proofs/). A crate has a function, so here is one.
#![tactic(auto)]

pub fn nothing() {}
