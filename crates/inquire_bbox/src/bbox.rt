// Boxes of points (bbox.rs).
ghost use Rattle.std.specs.Prelude.{◌≡◌, cond, List, [], ◌∷◌, ◌++◌};
ghost use Rattle.meaning.specs.Floats.{lesser, greater};
ghost use Rattle.inquire_bbox.specs.Boxes.{included, extent_of};

use float_vectors::vector::Point3;

// A box with its lower and its upper corner.
#[derive(Clone, Copy)]
pub struct Aabb {
    pub min: Point3,
    pub max: Point3,
}

// What is known of points that were met one after the other: whether there are none, whether all are finite, and their box.
#[derive(Clone, Copy)]
pub struct Extent {
    pub empty: bool,
    pub finite: bool,
    pub bounds: Aabb,
}

// Of two that are equal, the first.
fn lesser(a: f64, b: f64) -> f64
    ensures { result ≡ lesser a b }
{
    if b < a {
        return b;
    }
    a
}

fn greater(a: f64, b: f64) -> f64
    ensures { result ≡ greater a b }
{
    if a < b {
        return b;
    }
    a
}

impl Aabb {
    // The box grown to contain p.
    pub fn including(self, p: Point3) -> Self
        ensures { result ≡ included self p }
    {
        Self {
            min: Point3 {
                x: lesser(self.min.x, p.x),
                y: lesser(self.min.y, p.y),
                z: lesser(self.min.z, p.z),
            },
            max: Point3 {
                x: greater(self.max.x, p.x),
                y: greater(self.max.y, p.y),
                z: greater(self.max.z, p.z),
            },
        }
    }
}

impl Extent {
    // Of no point.
    pub fn none() -> Self
        ensures { result ≡ extent_of [] }
    {
        let zero = Point3 {
            x: 0.0,
            y: 0.0,
            z: 0.0,
        };
        Self {
            empty: true,
            finite: true,
            bounds: Aabb {
                min: zero,
                max: zero,
            },
        }
    }

    // The box of the points and p: the first point is its own.
    fn grown(self, p: Point3) -> Aabb
        ensures { result ≡ cond self.empty (record { min = p; max = p }) (included self.bounds p) }
    {
        if self.empty {
            return Aabb { min: p, max: p };
        }
        self.bounds.including(p)
    }

    // Of one point more.
    pub fn with(self, p: Point3) -> Self
        ensures { (l : List Point3) → self ≡ extent_of l → result ≡ extent_of (l ++ (p ∷ [])) }
    {
        Self {
            empty: false,
            finite: self.finite & p.is_finite(),
            bounds: self.grown(p),
        }
    }
}
