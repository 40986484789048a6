// The line of curve.rs.
ghost use Rattle.std.specs.Prelude.{◌≡◌};
ghost use Rattle.geom_lines_planes.specs.Geometry.{line_point, nearest};

use float_vectors::vector::{Point3, Vec3};

// The infinite line origin + direction · t.
#[derive(Clone, Copy)]
pub struct Line {
    pub origin: Point3,
    pub direction: Vec3,
}

impl Line {
    // The point at t.
    pub fn eval(self, t: f64) -> Point3
        ensures { result ≡ line_point self t }
    {
        self.origin.add(self.direction.mul(t))
    }

    // The parameter of the closest point to p.
    pub fn closest_param(self, p: Point3) -> f64
        ensures { result ≡ nearest self p }
    {
        p.sub(self.origin).dot(self.direction)
    }
}
