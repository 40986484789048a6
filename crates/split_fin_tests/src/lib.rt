// Inner: the fins of an edge that is to be split, test 11 of euler.rs's `split_line_edge`. `fins` has it fin by fin, `faces` from the face on.
#![tactic(auto)]

pub mod faces;
pub mod fins;
