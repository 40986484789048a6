// Inner: the areas of faces in square sixteenths (W-212), in `i64` and `u64`, which no step outgrows: a coordinate is at most 2^15 in size, a step of a loop 2^31, a face 2^42, all faces
// of a body 2^51.
#![tactic(auto)]

ghost use Rattle.std.specs.Prelude.{◌≡◌, true, cond, map, ◌≤◌, ◌^◌, eqb, nat_abs, ◌-ℤ◌, ◌*ℤ◌, length};
ghost use Rattle.float_grid.specs.Grid.{sixteenths};
ghost use Rattle.meaning.specs.Lists.{all};
ghost use Rattle.meaning_slabs.specs.Slabs.{steps, closed, sumℤ, face_area, area_sum};
ghost use Rattle.memory_layout.specs.Decode.{decode};
ghost use Rattle.memory_layout.specs.Fit.{Fit};
ghost use Rattle.memory_writes.specs.Put.{over};
ghost use Rattle.inquire_fin_starts.specs.Starts.{start_number, Whole, Rim};
ghost use Rattle.slab_areas.specs.Measured.{across, upward, step_at, measurable};

use float_grid::{on_grid, sixteenths};
use inquire_fin_starts::start_point;
use inquire_sides::rim;
use inquire_weight::{above, below};
use slab_axes::on;
use slab_faces::face_axis;
use slab_fins::next_of;

// How many sixteenths it is; 0 off the grid, which nobody reads.
fn counted(x: f64) -> i64
    ensures { result ≡ sixteenths x }
{
    if on_grid(x) {
        return sixteenths(x);
    }
    0
}

// The two axes beside an axis.
fn across(axis: u32) -> u32
    ensures { result ≡ across axis }
{
    if axis == 0 {
        return 1;
    }
    0
}

fn upward(axis: u32) -> u32
    ensures { result ≡ upward axis }
{
    if axis == 2 {
        return 1;
    }
    2
}

// The area between a way from (a, b) to (.., c) and the line where u is 0.
fn strip(a: i64, b: i64, c: i64) -> i64
    requires { (nat_abs a ≤ 32768) × (nat_abs b ≤ 32768) × (nat_abs c ≤ 32768) }
    ensures { result ≡ a *ℤ (c -ℤ b) }
{
    a * (c - b)
}

// The same from where the fin i starts to where j does.
fn step(room: &[usize; 10], words: &[u32], reals: &[f64], axis: u32, i: usize, j: usize) -> i64
    requires fit { Fit room.now words.now reals.now }
    requires whole { Whole room.now words.now i × Whole room.now words.now j }
    requires i_value { (start_number room.now words.now i ≡ 0) × (start_number room.now words.now j ≡ 0) }
    ensures { result ≡ step_at (decode room.now words.now reals.now) axis i j }
{
    let p = start_point(room, words, reals, i);
    let q = start_point(room, words, reals, j);
    let u = across(axis);
    let v = upward(axis);
    strip(counted(on(u, p)), counted(on(v, p)), counted(on(v, q)))
}

// The signed area of a loop.
fn loop_area(room: &[usize; 10], words: &[u32], reals: &[f64], axis: u32, fins: &[u32]) -> i64
    requires fit { Fit room.now words.now reals.now }
    requires rim { Rim room.now words.now fins.now }
    requires fins_len_bound { length fins.now ≤ 1024 }
    ensures { result ≡ sumℤ (steps (step_at (decode room.now words.now reals.now) axis) (closed fins.now)) }
{
    let mut acc: i64 = 0;
    for (k, fin) in fins.iter().enumerate() {
        let next = next_of(fins, k) as usize;
        acc = acc + step(room, words, reals, axis, *fin as usize, next);
    }
    acc
}

// The size of a number.
fn size(v: i64) -> u64
    requires { nat_abs v ≤ 2 ^ 62 }
    ensures { result ≡ nat_abs v }
{
    above(v) + below(v)
}

// The area of a face.
fn face_area(room: &[usize; 10], words: &[u32], reals: &[f64], f: usize) -> u64
    requires fit { Fit room.now words.now reals.now }
    requires f_value { measurable room.now words.now f ≡ true }
    ensures { (result ≡ face_area (decode room.now words.now reals.now) f) × (result ≤ 2 ^ 42) }
{
    let axis = face_axis(room, words, reals, f);
    size(loop_area(room, words, reals, axis, rim(room, words, f)))
}

// Puts the area of each face into the front of the list, and returns their sum.
pub fn write_areas(
    room: &[usize; 10],
    words: &[u32],
    reals: &[f64],
    faces: &[u32],
    areas: &mut [u64],
) -> u64
    requires fit { Fit room.now words.now reals.now }
    requires faces_value { all (measurable room.now words.now) faces.now ≡ true }
    requires faces_len_bound { (length faces.now ≤ 512) × (length faces.now ≤ length areas.old) }
    ensures value { result ≡ area_sum (map (face_area (decode room.now words.now reals.now)) faces.now) }
    ensures areas_after { areas.new ≡ over 0 (map (face_area (decode room.now words.now reals.now)) faces.now) areas.old }
{
    let mut sum: u64 = 0;
    for (k, face) in faces.iter().enumerate() {
        let a = face_area(room, words, reals, *face as usize);
        areas[k] = a;
        sum = sum + a;
    }
    sum
}
