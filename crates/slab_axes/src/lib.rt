// Inner: axes (W-212): whether a normal is a signed axis and which, a point's coordinate on it, in how many coordinates two points differ; and a broken rule as a number.
//
// The family slab_: the slab profile of a body. Callers ask office_slabs. Read slab_axes, slab_entities, of which the rules are made, slab_rules, slab_areas, then slab_profile.
#![tactic(auto)]

ghost use Rattle.std.specs.Prelude.{◌≡◌, suc, ◌≤◌};
ghost use Rattle.geom_lines_planes.specs.Refuse.{◌unless◌, ◌then◌};
ghost use Rattle.meaning_slabs.specs.Slabs.{unit_f, nought, signed_axis, axis_of, on, differs, differing};

use float_vectors::vector::{Point3, Vec3};

// 1 or -1; a zero of either sign.
fn unit(x: f64) -> bool
    ensures { result ≡ unit_f x }
{
    (x == 1.0) | (x == -1.0)
}

fn nought(x: f64) -> bool
    ensures { result ≡ nought x }
{
    x == 0.0
}

// Is it a signed axis?
pub fn signed_axis(n: Vec3) -> bool
    ensures { result ≡ signed_axis n }
{
    (unit(n.x) & nought(n.y) & nought(n.z))
        | (nought(n.x) & unit(n.y) & nought(n.z))
        | (nought(n.x) & nought(n.y) & unit(n.z))
}

// Which axis: 0, 1 or 2.
pub fn axis_of(n: Vec3) -> u32
    ensures { result ≡ axis_of n }
{
    if unit(n.x) {
        return 0;
    }
    if unit(n.y) {
        return 1;
    }
    2
}

// The coordinate of a point on an axis.
pub fn on(axis: u32, p: Point3) -> f64
    ensures { result ≡ on axis p }
{
    if axis == 0 {
        return p.x;
    }
    if axis == 1 {
        return p.y;
    }
    p.z
}

fn differs(a: f64, b: f64) -> u32
    ensures { (result ≡ differs a b) × (result ≤ 1) }
{
    if a == b {
        return 0;
    }
    1
}

// In how many coordinates the points differ.
pub fn differing(p: Point3, q: Point3) -> u32
    ensures { result ≡ differing p q }
{
    differs(p.x, q.x) + differs(p.y, q.y) + differs(p.z, q.z)
}

// 0 where a rule holds of an entity, else its id and one.
pub fn unless_holds(i: u32, holds: bool) -> u64
    ensures { result ≡ suc i unless holds }
{
    if holds {
        return 0;
    }
    i as u64 + 1
}

// The first of two such numbers that is not 0.
pub fn then(a: u64, b: u64) -> u64
    ensures { result ≡ a then b }
{
    if a != 0 {
        return a;
    }
    b
}
