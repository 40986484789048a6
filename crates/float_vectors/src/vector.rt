// Points and vectors (vector.rs). They are distinct types, so that two points are never added.
ghost use Rattle.std.specs.Prelude.{◌≡◌};
ghost use Rattle.std.specs.Float.Ieee.Scale.{finite};
ghost use Rattle.float_vectors.specs.Space.{minus, along, sum_v, minus_v, scaled_v, dot_v, cross_v, finite_point};

// A displacement or a direction.
#[derive(Clone, Copy)]
pub struct Vec3 {
    pub x: f64,
    pub y: f64,
    pub z: f64,
}

// A position.
#[derive(Clone, Copy)]
pub struct Point3 {
    pub x: f64,
    pub y: f64,
    pub z: f64,
}

// Rust's `f64::is_finite`.
pub fn is_finite(x: f64) -> bool
    ensures { result ≡ finite x }
{
    (-1.0 / 0.0 < x) & (x < 1.0 / 0.0)
}

impl Vec3 {
    pub fn add(self, o: Vec3) -> Vec3
        ensures { result ≡ sum_v self o }
    {
        Vec3 {
            x: self.x + o.x,
            y: self.y + o.y,
            z: self.z + o.z,
        }
    }

    pub fn sub(self, o: Vec3) -> Vec3
        ensures { result ≡ minus_v self o }
    {
        Vec3 {
            x: self.x - o.x,
            y: self.y - o.y,
            z: self.z - o.z,
        }
    }

    pub fn mul(self, s: f64) -> Vec3
        ensures { result ≡ scaled_v self s }
    {
        Vec3 {
            x: self.x * s,
            y: self.y * s,
            z: self.z * s,
        }
    }

    // The terms are added in the order x, y, z.
    pub fn dot(self, o: Vec3) -> f64
        ensures { result ≡ dot_v self o }
    {
        self.x * o.x + self.y * o.y + self.z * o.z
    }

    pub fn cross(self, o: Vec3) -> Vec3
        ensures { result ≡ cross_v self o }
    {
        Vec3 {
            x: self.y * o.z - self.z * o.y,
            y: self.z * o.x - self.x * o.z,
            z: self.x * o.y - self.y * o.x,
        }
    }
}

impl Point3 {
    // The point moved by v.
    pub fn add(self, v: Vec3) -> Point3
        ensures { result ≡ along self v }
    {
        Point3 {
            x: self.x + v.x,
            y: self.y + v.y,
            z: self.z + v.z,
        }
    }

    // The way from o to the point.
    pub fn sub(self, o: Point3) -> Vec3
        ensures { result ≡ minus self o }
    {
        Vec3 {
            x: self.x - o.x,
            y: self.y - o.y,
            z: self.z - o.z,
        }
    }

    pub fn is_finite(self) -> bool
        ensures { result ≡ finite_point self }
    {
        is_finite(self.x) & is_finite(self.y) & is_finite(self.z)
    }
}
