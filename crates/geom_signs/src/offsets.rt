// Whether a point is off a plane or off a curve: two sign tests of euler.rs and gensolid-check, over intervals (`specs/Signs.antt`,
// `specs/Certified.antt`).
ghost use Rattle.std.specs.Prelude.{◌≡◌};
ghost use Rattle.geom_signs.specs.Signs.{off_plane_s, off_curve_s};

use float_vectors::vector::Point3;
use geom_lines_planes::surface::Plane;
use interval_arithmetic::{Interval, Sign};
use interval_vectors::{dot, point3, vector};

// Whether p is further from the plane than the tolerance (positive).
pub fn off_plane(plane: Plane, p: Point3, tolerance: f64) -> Sign
    ensures { result ≡ off_plane_s plane p tolerance }
{
    let distance = dot(point3(plane.normal), vector(p, plane.origin));
    distance.sqr().sub(Interval::point(tolerance).sqr()).sign()
}

// Whether a vertex at p, whose closest point on the curve is q, is further from it than the tolerances of the vertex and the edge
// together (positive).
pub fn off_curve(p: Point3, q: Point3, vertex: f64, edge: f64) -> Sign
    ensures { result ≡ off_curve_s p q vertex edge }
{
    let way = vector(p, q);
    let reach = Interval::point(vertex).add(Interval::point(edge));
    dot(way, way).sub(reach.sqr()).sign()
}
