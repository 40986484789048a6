// Inner: tests 12 and 13 of a split, whether the wire shells and the slots of all tables and lists concerned take what is new.
#![tactic(auto)]

pub mod tables;
pub mod wires;
