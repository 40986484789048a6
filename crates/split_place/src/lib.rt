// Inner: where the edge is split, tests 1, 9 and 10. `specs/SplitNumber.antt` says what a call is refused with.
#![tactic(auto)]

ghost use Rattle.std.specs.Prelude.{◌≡◌, ◌<◌};
ghost use Rattle.memory_layout.specs.Names.{EDGES};
ghost use Rattle.memory_layout.specs.Layout.{word};
ghost use Rattle.memory_layout.specs.Decode.{decode};
ghost use Rattle.memory_layout.specs.Fit.{Sized};
ghost use Rattle.split_place.specs.Place.{fraction_ok, along, cut_of, tolerance_at, point_test};

use float_vectors::vector::{Point3, is_finite};
use geom_signs::apart;
use memory_layout::layout::{reals_of, words_of};
use memory_layout::names::{AT_EDGE_TOLERANCE, EDGES, FLOAT_EDGE_TOLERANCE};
use memory_records::records::{in_effect, tolerance_of};
use split_fin_tests::faces::Cut;
use split_segment::refusals::{then, unless};
use split_segment::segment::{Segment, is_positive};

// Test 1.
pub fn fraction_ok(t: f64) -> bool
    ensures { result ≡ fraction_ok t }
{
    is_finite(t) & (0.0 < t) & (t < 1.0)
}

// The parameter lo + (hi - lo)·fraction.
fn parameter(segment: Segment, fraction: f64) -> f64
    ensures { result ≡ along segment fraction }
{
    let lo = segment.lo();
    lo + (segment.hi() - lo) * fraction
}

pub fn cut_of(segment: Segment, fraction: f64, tolerance: f64) -> Cut
    ensures { result ≡ cut_of segment fraction tolerance }
{
    Cut {
        lo: segment.line.eval(segment.lo()),
        hi: segment.line.eval(segment.hi()),
        at: segment.line.eval(parameter(segment, fraction)),
        tolerance,
    }
}

// The edge's tolerance in effect.
pub fn edge_tolerance(room: &[usize; 10], words: &[u32], reals: &[f64], edge: usize) -> f64
    requires sized { Sized room.now words.now reals.now }
    requires edge_bound { edge < word words.now EDGES }
    ensures { result ≡ tolerance_at (decode room.now words.now reals.now) edge }
{
    let w = words_of(room, words, EDGES, edge);
    let x = reals_of(room, reals, EDGES, edge);
    in_effect(
        words,
        reals,
        tolerance_of(w[AT_EDGE_TOLERANCE], x[FLOAT_EDGE_TOLERANCE]),
    )
}

// Tests 9 and 10.
pub fn point_refusal(segment: Segment, at: Point3, precision: f64) -> u32
    ensures { result ≡ point_test segment at precision }
{
    let start = unless(4, is_positive(apart(at, segment.start, precision)));
    let end = unless(4, is_positive(apart(at, segment.end, precision)));
    then(unless(4, at.is_finite()), then(start, end))
}
