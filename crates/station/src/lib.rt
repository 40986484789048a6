// For callers: the station's calls, for C and Rust. Each is one proved call, exported. An answer that is an enum crosses as its number, 0 or
// the refusal, and its values in lent slots, which a refusal leaves as they were (the family c_).
#![tactic(auto)]

pub mod asking;
pub mod editing;
pub mod images;
pub mod models;
pub mod reading;
pub mod sheets;
