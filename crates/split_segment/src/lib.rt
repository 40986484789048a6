// Inner: the geometry of a straight edge, and rows of tests.
//
// The family split_: splitting an edge (euler.rs). Call split_bounds, split_tests, split_edge. Read the tests in 01's order: split_segment,
// split_bounds, split_fins, split_fin_tests, split_place, split_room, and split_foreign for the office, split_tests; then the writing, split_lists,
// split_pieces, split_records, split_writes, split_edge; then what stays true, split_effect, split_sequences, split_offices, split_witness.
#![tactic(auto)]

pub mod refusals;
pub mod segment;
