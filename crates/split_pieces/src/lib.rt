// Inner: what a split writes, the lists that name its fins and its edge, and the new fins. `specs/Pieces.antt` says
// what each step leaves.
#![tactic(auto)]

pub mod fins;
pub mod relist;
