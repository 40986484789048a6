// Inner: a corner in binary32, and one triangle's 50 bytes, written where they fit (W-209). A drawing is measured by the same walk that writes it, with no bytes lent.
#![tactic(auto)]

ghost use Rattle.std.specs.Prelude.{◌≡◌, ◌≤◌};
ghost use Rattle.stl_format.specs.Stl.{narrow_point};
ghost use Rattle.stl_triangles.specs.Spots.{spot_of, spot_bytes, fitted};

use float_narrow::{narrow, narrow_bits};
use float_vectors::vector::Point3;
use image_bytes::{put_mark, put_words};

// A corner: its coordinates' patterns in binary32.
#[derive(Clone, Copy)]
pub struct Spot {
    pub x: u32,
    pub y: u32,
    pub z: u32,
}

// Are the point's coordinates binary32 values?
pub fn narrow_point(p: Point3) -> bool
    ensures { result ≡ narrow_point p }
{
    narrow(p.x) & narrow(p.y) & narrow(p.z)
}

pub fn spot_of(p: Point3) -> Spot
    ensures { result ≡ spot_of p }
{
    Spot {
        x: narrow_bits(p.x),
        y: narrow_bits(p.y),
        z: narrow_bits(p.z),
    }
}

// The normal, three corners and the attribute, from a place on, unless they reach beyond the last byte.
pub fn put_triangle(bytes: &mut [u8], at: usize, o: Spot, p: Spot, q: Spot)
    requires { at ≤ 0x1000000000000 }
    ensures { bytes.new ≡ fitted at (spot_bytes o p q) bytes.old }
{
    if bytes.len() < at + 50 {
        return;
    }
    let numbers = [0, 0, 0, o.x, o.y, o.z, p.x, p.y, p.z, q.x, q.y, q.z];
    put_words(bytes, at, &numbers);
    put_mark(bytes, at + 48, 0);
}
