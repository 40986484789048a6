// The geometry of a straight edge: its line and its two points.
ghost use Rattle.std.specs.Prelude.{◌≡◌};
ghost use Rattle.meaning.specs.Split.{is_positive};
ghost use Rattle.split_segment.specs.Segment.{low, high, span_refusal};

use crate::refusals::{then, unless};
use float_vectors::vector::{Point3, is_finite};
use geom_lines_planes::curve::Line;
use geom_signs::{increasing, span};
use interval_arithmetic::Sign;

#[derive(Clone, Copy)]
pub struct Segment {
    pub line: Line,
    pub start: Point3,
    pub end: Point3,
}

pub fn is_positive(sign: Sign) -> bool
    ensures { result ≡ is_positive sign }
{
    match sign {
        Sign::Negative => false,
        Sign::Zero => false,
        Sign::Positive => true,
        Sign::Unresolved => false,
    }
}

impl Segment {
    // The parameter of the start on the line.
    pub fn lo(self) -> f64
        ensures { result ≡ low self }
    {
        self.line.closest_param(self.start)
    }

    // The parameter of the end.
    pub fn hi(self) -> f64
        ensures { result ≡ high self }
    {
        self.line.closest_param(self.end)
    }
}

// Tests 7 and 8.
pub fn span_refusal(segment: Segment) -> u32
    ensures { result ≡ span_refusal segment }
{
    let lo = segment.lo();
    let hi = segment.hi();
    let increases = is_positive(increasing(segment.line.direction, segment.start, segment.end));
    let bounded = is_finite(lo) & is_finite(hi) & is_positive(span(lo, hi));
    then(unless(4, increases), unless(7, bounded))
}
