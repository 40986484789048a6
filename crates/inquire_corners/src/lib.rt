// Inner: points in whole sixteenths, and one triangle of a fan (W-201), in `i64`, which no step outgrows: a coordinate is at most 2^15 in size, a difference
// 2^16, a component of a cross product 2^33, a triangle 3·2^48.
#![tactic(auto)]

ghost use Rattle.std.specs.Prelude.{◌≡◌, true, ◌≤◌, ◌^◌, nat_abs, ◌-ℤ◌, ◌*ℤ◌};
ghost use Rattle.meaning_sheets.specs.Sheets.{grid_point, corner, minus_c, dot_c, cross_c, wedge};
ghost use Rattle.meaning_sheet_laws.specs.Sizes.{Within, Small};
ghost use Rattle.inquire_corners.specs.Seen.{seen};

use float_grid::{on_grid, sixteenths};
use float_vectors::vector::Point3;

// A point, or the way between two, in sixteenths.
#[derive(Clone, Copy)]
pub struct Corner {
    pub x: i64,
    pub y: i64,
    pub z: i64,
}

// Is the point on the grid?
pub fn grid_point(p: Point3) -> bool
    ensures { result ≡ grid_point p }
{
    on_grid(p.x) & on_grid(p.y) & on_grid(p.z)
}

// A point of the grid, counted in sixteenths.
pub fn counted(p: Point3) -> Corner
    requires { grid_point p ≡ true }
    ensures { seen result ≡ corner p }
{
    Corner {
        x: sixteenths(p.x),
        y: sixteenths(p.y),
        z: sixteenths(p.z),
    }
}

// The way from q to p.
fn minus(p: Corner, q: Corner) -> Corner
    requires { Small (seen p) × Small (seen q) }
    ensures { seen result ≡ minus_c (seen p) (seen q) }
{
    Corner {
        x: p.x - q.x,
        y: p.y - q.y,
        z: p.z - q.z,
    }
}

// A component of a cross product.
fn component(a: i64, b: i64, c: i64, d: i64) -> i64
    requires { (nat_abs a ≤ 65536) × (nat_abs b ≤ 65536) × (nat_abs c ≤ 65536) × (nat_abs d ≤ 65536) }
    ensures { result ≡ a *ℤ b -ℤ c *ℤ d }
{
    a * b - c * d
}

fn cross(v: Corner, w: Corner) -> Corner
    requires { Within 65536 (seen v) × Within 65536 (seen w) }
    ensures { seen result ≡ cross_c (seen v) (seen w) }
{
    Corner {
        x: component(v.y, w.z, v.z, w.y),
        y: component(v.z, w.x, v.x, w.z),
        z: component(v.x, w.y, v.y, w.x),
    }
}

fn dot(o: Corner, v: Corner) -> i64
    requires { Small (seen o) × Within (2 ^ 33) (seen v) }
    ensures { result ≡ dot_c (seen o) (seen v) }
{
    o.x * v.x + o.y * v.y + o.z * v.z
}

// One triangle of the fan from o: o·((p - o) × (q - o)).
pub fn wedge(o: Corner, p: Corner, q: Corner) -> i64
    requires { Small (seen o) × Small (seen p) × Small (seen q) }
    ensures { result ≡ wedge (seen o) (seen p) (seen q) }
{
    dot(o, cross(minus(p, o), minus(q, o)))
}
