// For callers: points and vectors of floats (vector.rs).
#![tactic(auto)]

pub mod vector;
