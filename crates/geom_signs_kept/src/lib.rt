// No code: that a decided sign stays where exact sums stay, definitions and theorems (specs/). A crate has a function, so here is one.
#![tactic(auto)]

pub fn nothing() {}
