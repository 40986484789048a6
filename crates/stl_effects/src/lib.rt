// No code: what the writing of a body's binary STL leaves in the lent bytes, that no count outgrows its 32 bits, and that other records make no difference (W-209; specs/). A crate has a function, so
// here is one.
#![tactic(auto)]

pub fn nothing() {}
