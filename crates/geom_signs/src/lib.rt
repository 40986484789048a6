// For callers: the sign tests of euler.rs and gensolid-check, over intervals. A sign that is decided is that of the exact number
// (`specs/Certified.antt`).
#![tactic(auto)]

pub mod offsets;

ghost use Rattle.std.specs.Prelude.{◌≡◌};
ghost use Rattle.geom_signs.specs.Signs.{increasing_s, span_s, apart_s};

use float_vectors::vector::{Point3, Vec3};
use interval_arithmetic::{Interval, Sign};
use interval_vectors::{difference, dot, point3, vector};

// Whether end lies before start in the direction (positive), behind it, or neither.
pub fn increasing(direction: Vec3, start: Point3, end: Point3) -> Sign
    ensures { result ≡ increasing_s direction start end }
{
    dot(vector(end, start), point3(direction)).sign()
}

// The sign of hi - lo.
pub fn span(lo: f64, hi: f64) -> Sign
    ensures { result ≡ span_s lo hi }
{
    difference(hi, lo).sign()
}

// Whether p and q are further apart than the precision (positive).
pub fn apart(p: Point3, q: Point3, precision: f64) -> Sign
    ensures { result ≡ apart_s p q precision }
{
    let delta = vector(p, q);
    dot(delta, delta)
        .sub(Interval::point(precision).sqr())
        .sign()
}
