// Inner: the records as typed values (entity.rs), read out of the lent memory.
#![tactic(auto)]

pub mod records;
