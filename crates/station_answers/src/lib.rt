// For callers: what box, volume, split, report and fit to saw answer, types. Values, or the refusal's number.
//
// The family station: what a station's programmer meets. station exports every call for C and Rust; station_answers has the types that the calls in Rattle answer with,
// apart from the calls, so that what crosses them to C depends on none.
#![tactic(auto)]

use inquire_bbox::bbox::Aabb;

// The box, or the refusal's number.
#[derive(Clone, Copy)]
pub enum BoxFound {
    Is(Aabb),
    Refused(u32),
}

// The volume, or the refusal's number.
#[derive(Clone, Copy)]
pub enum Volume {
    Is(f64),
    Refused(u32),
}

// The edge, kept as the first half, the second half, and the vertex between them.
#[derive(Clone, Copy)]
pub struct EdgeSplit {
    pub original_edge: u32,
    pub new_edge: u32,
    pub vertex: u32,
}

// What a split made, or the refusal's number.
#[derive(Clone, Copy)]
pub enum Split {
    Is(EdgeSplit),
    Refused(u32),
}

// How many faults there are, how many were kept, and how many checks could not be made.
#[derive(Clone, Copy)]
pub struct Counts {
    pub faults: usize,
    pub kept: usize,
    pub unchecked: usize,
}

// The report's counts, or the refusal's number.
#[derive(Clone, Copy)]
pub enum Checked {
    Is(Counts),
    Refused(u32),
}

// Whether a body is fit to saw, or the refusal's number.
#[derive(Clone, Copy)]
pub enum Sawable {
    Is(bool),
    Refused(u32),
}

// A crate must have a function.
pub fn nothing() {}
