// Inner: whether a record is one that refusal 9 lets through. It is tested by its own words and floats. `specs/Readable.antt` of `memory_layout` has the tests.
#![tactic(auto)]

pub mod allowed;

ghost use Rattle.std.specs.Prelude.{◌≡◌, ◌&&◌, ◌<◌, ◌≤◌, leb, [], length};
ghost use Rattle.memory_layout.specs.Layout.{word_strides, word};
ghost use Rattle.memory_layout.specs.Readable.{face_ok, loop_ok, fin_ok, edge_ok, vertex_ok, carrier_ok, record_ok};
ghost use Rattle.memory_layout.specs.Fit.{Whole};

use crate::allowed::{body_ok, own_ok, region_ok, shell_ok};
use memory_layout::names::{
    AT_CARRIER_TAG, AT_EDGE_FINS, AT_EDGE_TOLERANCE, AT_FACE_LOOPS, AT_FIN_PCURVE, AT_FIN_SENSE,
    AT_LOOP_FINS, AT_VERTEX_TOLERANCE, BODIES, CURVES, EDGES, FACES, FINS, FLOAT_EDGE_TOLERANCE,
    FLOAT_VERTEX_TOLERANCE, REGIONS, SHELLS, VERTICES,
};

// The four tags that a face has, and an edge: three optional ids, then a sense or an optional tolerance. The places are numbers
// here, as they have one name in a face and another in an edge.
fn marked(w: &[u32]) -> bool
    requires { 8 ≤ length w.now }
    ensures { result ≡ (leb (word w.now 0) 1 && leb (word w.now 2) 1 && leb (word w.now 4) 1 && leb (word w.now 6) 1) }
{
    (w[0] <= 1) & (w[2] <= 1) & (w[4] <= 1) & (w[6] <= 1)
}

fn face_ok(w: &[u32]) -> bool
    requires { length w.now ≡ 24 }
    ensures { result ≡ face_ok w.now }
{
    marked(w) & (w[AT_FACE_LOOPS] <= 16)
}

fn loop_ok(w: &[u32]) -> bool
    requires { length w.now ≡ 1026 }
    ensures { result ≡ loop_ok w.now }
{
    w[AT_LOOP_FINS] <= 1024
}

fn fin_ok(w: &[u32]) -> bool
    requires { length w.now ≡ 4 }
    ensures { result ≡ fin_ok w.now }
{
    (w[AT_FIN_SENSE] <= 1) & (w[AT_FIN_PCURVE] <= 1)
}

fn edge_ok(w: &[u32], x: &[f64]) -> bool
    requires { (length w.now ≡ 16) × (length x.now ≡ 1) }
    ensures { result ≡ edge_ok w.now x.now }
{
    marked(w) & (w[AT_EDGE_FINS] <= 8) & own_ok(w[AT_EDGE_TOLERANCE], x[FLOAT_EDGE_TOLERANCE])
}

fn vertex_ok(w: &[u32], x: &[f64]) -> bool
    requires { (length w.now ≡ 1) × (length x.now ≡ 4) }
    ensures { result ≡ vertex_ok w.now x.now }
{
    (w[AT_VERTEX_TOLERANCE] <= 1) & own_ok(w[AT_VERTEX_TOLERANCE], x[FLOAT_VERTEX_TOLERANCE])
}

fn carrier_ok(w: &[u32]) -> bool
    requires { length w.now ≡ 1 }
    ensures { result ≡ carrier_ok w.now }
{
    w[AT_CARRIER_TAG] <= 2
}

// One record of the first five tables, by its table.
fn upper_ok(k: usize, w: &[u32]) -> bool
    requires { (k < 5) × (length w.now ≡ word word_strides k) }
    ensures { result ≡ record_ok k w.now [] }
{
    match k {
        BODIES => body_ok(w),
        REGIONS => region_ok(w),
        SHELLS => shell_ok(w),
        FACES => face_ok(w),
        _ => loop_ok(w),
    }
}

// One record, by its table.
pub fn record_ok(k: usize, w: &[u32], x: &[f64]) -> bool
    requires { Whole k w.now x.now }
    ensures { result ≡ record_ok k w.now x.now }
{
    if k < 5 {
        return upper_ok(k, w);
    }
    match k {
        FINS => fin_ok(w),
        EDGES => edge_ok(w, x),
        VERTICES => vertex_ok(w, x),
        CURVES => carrier_ok(w),
        _ => carrier_ok(w),
    }
}
