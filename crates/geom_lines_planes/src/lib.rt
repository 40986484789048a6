// For callers: lines, planes, tolerances and refusals, curve.rs and surface.rs of gensolid-geom, tolerance.rs and error.rs of gensolid-core.
//
// The family geom_: what edges and faces lie on. geom_lines_planes has the figures, and how every answer is made of 01's number and a value (specs/Refuse.antt);
// geom_carriers what a table holds under an id, geom_queries the questions about it, geom_signs the sign tests that splitting and checking make,
// geom_tolerance_rules what holds of the tolerance rule in either version, geom_signs_kept the proof that no sign that was decided before W-205 became another.
#![tactic(auto)]

pub mod curve;
pub mod refusal;
pub mod surface;
pub mod tolerance;
