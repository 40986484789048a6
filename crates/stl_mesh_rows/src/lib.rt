// Inner: the fins, edges and vertices of a mesh in flat lists, laid over the lent memory one behind the other (W-210). `specs/Rows.antt` of `stl_rows` says what they are.
#![tactic(auto)]

pub mod floats;
pub mod lower;
