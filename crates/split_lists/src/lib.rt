// Inner: the lists that name a split edge's fins and wire edges, each written anew in its place. `beside` writes one list, `passes` those of a table.
#![tactic(auto)]

pub mod beside;
pub mod passes;
