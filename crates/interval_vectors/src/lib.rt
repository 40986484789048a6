// For callers: vectors of intervals, `vector` and `dot` of polyhedron.rs.
#![tactic(auto)]

ghost use Rattle.std.specs.Prelude.{◌≡◌};
ghost use Rattle.interval_vectors.specs.Vectors.{difference_i, point_i3, vector_i, dot_i};

use float_vectors::vector::{Point3, Vec3};
use interval_arithmetic::Interval;

#[derive(Clone, Copy)]
pub struct Interval3 {
    pub x: Interval,
    pub y: Interval,
    pub z: Interval,
}

// A float vector as intervals of one number each.
pub fn point3(v: Vec3) -> Interval3
    ensures { result ≡ point_i3 v }
{
    Interval3 {
        x: Interval::point(v.x),
        y: Interval::point(v.y),
        z: Interval::point(v.z),
    }
}

// a - b, of two floats.
pub fn difference(a: f64, b: f64) -> Interval
    ensures { result ≡ difference_i a b }
{
    Interval::point(a).sub(Interval::point(b))
}

// point - origin.
pub fn vector(point: Point3, origin: Point3) -> Interval3
    ensures { result ≡ vector_i point origin }
{
    Interval3 {
        x: difference(point.x, origin.x),
        y: difference(point.y, origin.y),
        z: difference(point.z, origin.z),
    }
}

pub fn dot(a: Interval3, b: Interval3) -> Interval
    ensures { result ≡ dot_i a b }
{
    a.x.mul(b.x).add(a.y.mul(b.y)).add(a.z.mul(b.z))
}
