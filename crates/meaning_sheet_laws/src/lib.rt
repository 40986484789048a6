// No code: how large the numbers of the stone sheet get, and what any row of takes does to the sheet (W-201), definitions and theorems (specs/). A crate has a function, so here is one.
#![tactic(auto)]

pub fn nothing() {}
