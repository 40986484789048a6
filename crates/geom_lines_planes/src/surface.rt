// The plane of surface.rs.
ghost use Rattle.std.specs.Prelude.{◌≡◌};
ghost use Rattle.geom_lines_planes.specs.Geometry.{size_f, plane_distance};

use float_vectors::vector::{Point3, Vec3};

// The plane through origin; normal is the z of the source's frame.
#[derive(Clone, Copy)]
pub struct Plane {
    pub origin: Point3,
    pub normal: Vec3,
}

// Rust's `f64::abs`: a zero too loses its sign.
fn abs(x: f64) -> f64
    ensures { result ≡ size_f x }
{
    if x < 0.0 {
        return -x;
    }
    if x == 0.0 {
        return 0.0;
    }
    x
}

impl Plane {
    // How far p lies from the plane.
    pub fn distance(self, p: Point3) -> f64
        ensures { result ≡ plane_distance self p }
    {
        abs(p.sub(self.origin).dot(self.normal))
    }
}
