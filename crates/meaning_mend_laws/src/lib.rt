// No code: what a mending keeps and what it mends (W-208), over the definitions of `meaning_mends`, theorems (specs/). A crate has a function, so here is one.
#![tactic(auto)]

pub fn nothing() {}
