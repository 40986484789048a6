// Inner: the body, the regions, shells, faces and loops that are built of binary STL, laid over the lent memory one behind the other (W-210). `specs/Rows.antt` says what
// all records are that reading leaves.
#![tactic(auto)]

pub mod append;
pub mod upper;
