// No code: that a loop's area in the slab profile (W-212) does not depend on where the loop begins, and that twice the area of each face of an accepted body is the size of the usual sum over its
// corners (proofs/; Statements.antt first). A crate has a function, so here is one.
#![tactic(auto)]

pub fn nothing() {}
