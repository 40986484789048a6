// Inner: whether bytes are as long as their count of triangles says, a corner of one, and whether the corners are finite and apart (W-210). The reverse of stl_triangles.
#![tactic(auto)]

ghost use Rattle.std.specs.Prelude.{◌≡◌, true, [], ◌∷◌, ◌+◌, ◌*◌, ◌≤◌, length, drop};
ghost use Rattle.std.specs.Float.{binary32};
ghost use Rattle.std.specs.Float.Ieee.{of_bits};
ghost use Rattle.geom_lines_planes.specs.Refuse.{◌unless◌, ◌then◌};
ghost use Rattle.stl_body.specs.Read.{coordinate_in, corner_in, triangle_in, triangles_in, count_in, stl_triangles, length_fits, same_point, corners, all_finite, all_apart};

use float_vectors::vector::Point3;
use image_bytes::word_in;

// Is there a byte for each that the count asks for, and none more?
pub fn length_fits(bytes: &[u8]) -> bool
    ensures { result ≡ length_fits bytes.now }
{
    if bytes.len() < 84 {
        return false;
    }
    let n = word_in(bytes, 80) as usize;
    bytes.len() == 84 + 50 * n
}

// How many triangles there are.
pub fn triangles_in(bytes: &[u8]) -> usize
    requires { length_fits bytes.now ≡ true }
    ensures { result ≡ count_in bytes.now }
{
    word_in(bytes, 80) as usize
}

// The float of 32 bits. What is not a number is tested first, since `f32::from_bits` is undefined there.
fn single_of(bits: u32) -> f64
    ensures { result ≡ of_bits binary32 bits }
{
    if bits % 0x80000000 > 0x7f800000 {
        return 0.0 / 0.0;
    }
    f32::from_bits(bits) as f64
}

fn coordinate_in(bytes: &[u8], at: usize) -> f64
    requires { at + 4 ≤ length bytes.now }
    ensures { result ≡ coordinate_in (drop at bytes.now) }
{
    single_of(word_in(bytes, at))
}

// The corner from a place on, of any bits.
pub fn corner_in(bytes: &[u8], at: usize) -> Point3
    requires { at + 12 ≤ length bytes.now }
    ensures { result ≡ corner_in (drop at bytes.now) }
{
    Point3 {
        x: coordinate_in(bytes, at),
        y: coordinate_in(bytes, at + 4),
        z: coordinate_in(bytes, at + 8),
    }
}

// Both zeros are the same.
pub fn same_point(p: Point3, q: Point3) -> bool
    ensures { result ≡ same_point p q }
{
    (p.x == q.x) & (p.y == q.y) & (p.z == q.z)
}

// The triangle from a place on: are its corners finite, is each another?
fn finite_at(bytes: &[u8], at: usize) -> bool
    requires { at + 50 ≤ length bytes.now }
    ensures { result ≡ all_finite (corners (triangle_in (drop at bytes.now) ∷ [])) }
{
    let a = corner_in(bytes, at + 12);
    let b = corner_in(bytes, at + 24);
    let c = corner_in(bytes, at + 36);
    a.is_finite() & b.is_finite() & c.is_finite()
}

fn apart_at(bytes: &[u8], at: usize) -> bool
    requires { at + 50 ≤ length bytes.now }
    ensures { result ≡ all_apart (triangle_in (drop at bytes.now) ∷ []) }
{
    let a = corner_in(bytes, at + 12);
    let b = corner_in(bytes, at + 24);
    let c = corner_in(bytes, at + 36);
    !(same_point(a, b) | same_point(b, c) | same_point(c, a))
}

fn all_finite(bytes: &[u8], n: usize) -> bool
    requires { 84 + 50 * n ≤ length bytes.now }
    ensures { result ≡ all_finite (corners (triangles_in n (drop 84 bytes.now))) }
{
    let mut ok = true;
    for k in 0..n {
        ok = ok & finite_at(bytes, 84 + 50 * k);
    }
    ok
}

fn all_apart(bytes: &[u8], n: usize) -> bool
    requires { 84 + 50 * n ≤ length bytes.now }
    ensures { result ≡ all_apart (triangles_in n (drop 84 bytes.now)) }
{
    let mut ok = true;
    for k in 0..n {
        ok = ok & apart_at(bytes, 84 + 50 * k);
    }
    ok
}

// 5 or 1 where a corner is refused, 5 wherever it stands.
pub fn corners_refusal(bytes: &[u8]) -> u32
    requires { length_fits bytes.now ≡ true }
    ensures { result ≡ (5 unless all_finite (corners (stl_triangles bytes.now)) then 1 unless all_apart (stl_triangles bytes.now)) }
{
    let n = triangles_in(bytes);
    if !all_finite(bytes, n) {
        return 5;
    }
    if !all_apart(bytes, n) {
        return 1;
    }
    0
}
