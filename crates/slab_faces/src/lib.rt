// Inner: the faces of a body by their rules (W-212): its normal is a signed axis, it has one loop, each fin of it ends where the next starts, its corners have one value on the normal's axis.
#![tactic(auto)]

ghost use Rattle.std.specs.Prelude.{◌≡◌, true, ◌+◌, ◌≤◌, ◌<◌, length};
ghost use Rattle.geom_carriers.specs.Queries.{the_plane};
ghost use Rattle.meaning.specs.Lists.{all, the};
ghost use Rattle.meaning.specs.Refuse.{first_of};
ghost use Rattle.meaning_slabs.specs.Slabs.{normal_of, on, corner_at, level, level_face, face_axis};
ghost use Rattle.memory_layout.specs.Names.{FACES, FACE_LOOPS};
ghost use Rattle.memory_layout.specs.Layout.{word};
ghost use Rattle.memory_layout.specs.Decode.{maybe_at, decode};
ghost use Rattle.memory_layout.specs.Entries.{list_of};
ghost use Rattle.memory_layout.specs.Fit.{Fit};
ghost use Rattle.inquire_fin_starts.specs.Starts.{start_number, Whole, Rim};
ghost use Rattle.inquire_sides.specs.Sides.{face_whole};
ghost use Rattle.slab_faces.specs.Tested.{level_at, rim_tested, face_tested};

use float_vectors::vector::Vec3;
use geom_carriers::{Carrier, plane_of};
use inquire_fin_starts::{start_point, starts_refusal};
use inquire_sides::rim;
use memory_layout::layout::words_of;
use memory_layout::names::{AT_FACE_SURFACE, FACE_LOOPS, FACES};
use memory_lists::list;
use memory_reads::carriers::surface_found;
use slab_axes::{axis_of, on, signed_axis, then, unless_holds};
use slab_fins::broken_fin;

// The rules, by their numbers.
pub const NORMAL: u32 = 1;

pub const ONE_LOOP: u32 = 2;

pub const ENDS: u32 = 3;

pub const LEVEL: u32 = 6;

// The normal of a plane; zeros where it is none, which nobody reads.
#[tactic(auto, unfolding(geom_carriers::specs::Queries::plane_answer, geom_carriers::specs::Queries::the_plane, geom_carriers::specs::Queries::plane_refusal))]
fn normal_in(surface: Option<Carrier>) -> Vec3
    ensures { result ≡ (the_plane surface).normal }
{
    match plane_of(surface) {
        Err(_) => Vec3 {
            x: 0.0,
            y: 0.0,
            z: 0.0,
        },
        Ok(plane) => plane.normal,
    }
}

// An optional id at a place of a record, and 0 where there is none.
fn id_at(w: &[u32], at: usize) -> u32
    requires { (at + 1 < length w.now) × (at ≤ 4) }
    ensures { result ≡ the (maybe_at w.now at) }
{
    if w[at] == 0 {
        return 0;
    }
    w[at + 1]
}

// The normal of a face's plane.
fn normal_of(room: &[usize; 10], words: &[u32], reals: &[f64], f: usize) -> Vec3
    requires fit { Fit room.now words.now reals.now }
    requires f_bound { f < word words.now FACES }
    ensures { result ≡ normal_of (decode room.now words.now reals.now) f }
{
    let surface = id_at(words_of(room, words, FACES, f), AT_FACE_SURFACE);
    normal_in(surface_found(room, words, reals, surface as usize))
}

// The axis of a face's normal.
pub fn face_axis(room: &[usize; 10], words: &[u32], reals: &[f64], f: usize) -> u32
    requires fit { Fit room.now words.now reals.now }
    requires f_bound { f < word words.now FACES }
    ensures { result ≡ face_axis (decode room.now words.now reals.now) f }
{
    axis_of(normal_of(room, words, reals, f))
}

// Where a fin starts, on an axis.
fn height(room: &[usize; 10], words: &[u32], reals: &[f64], axis: u32, i: usize) -> f64
    requires fit { Fit room.now words.now reals.now }
    requires whole { Whole room.now words.now i }
    requires i_value { start_number room.now words.now i ≡ 0 }
    ensures { result ≡ on axis (corner_at (decode room.now words.now reals.now) i) }
{
    on(axis, start_point(room, words, reals, i))
}

// Do all fins start there?
fn level_at(
    room: &[usize; 10],
    words: &[u32],
    reals: &[f64],
    axis: u32,
    at: f64,
    fins: &[u32],
) -> bool
    requires fit { Fit room.now words.now reals.now }
    requires rim { Rim room.now words.now fins.now }
    ensures { result ≡ all (level_at (decode room.now words.now reals.now) axis at) fins.now }
{
    let mut ok = true;
    for fin in fins {
        ok = ok & (height(room, words, reals, axis, *fin as usize) == at);
    }
    ok
}

// Do all fins start where the first does?
fn level(room: &[usize; 10], words: &[u32], reals: &[f64], axis: u32, fins: &[u32]) -> bool
    requires fit { Fit room.now words.now reals.now }
    requires rim { Rim room.now words.now fins.now }
    ensures { result ≡ level (decode room.now words.now reals.now) axis fins.now }
{
    if fins.len() == 0 {
        return true;
    }
    let at = height(room, words, reals, axis, fins[0] as usize);
    level_at(room, words, reals, axis, at, fins)
}

// Have the corners of the face one value on its normal's axis?
fn level_face(room: &[usize; 10], words: &[u32], reals: &[f64], f: usize) -> bool
    requires fit { Fit room.now words.now reals.now }
    requires f_value { face_whole room.now words.now f ≡ true }
    requires f_len { length (list_of room.now words.now FACE_LOOPS f) ≡ 1 }
    ensures { result ≡ level_face (decode room.now words.now reals.now) f }
{
    let fins = rim(room, words, f);
    if starts_refusal(room, words, fins) != 0 {
        return false;
    }
    level(room, words, reals, face_axis(room, words, reals, f), fins)
}

// A face with one loop.
fn rim_tested(room: &[usize; 10], words: &[u32], reals: &[f64], rule: u32, f: u32) -> u64
    requires fit { Fit room.now words.now reals.now }
    requires f_value { face_whole room.now words.now f ≡ true }
    requires f_len { length (list_of room.now words.now FACE_LOOPS f) ≡ 1 }
    ensures { result ≡ rim_tested (decode room.now words.now reals.now) rule f }
{
    if rule == ENDS {
        return broken_fin(room, words, rim(room, words, f as usize));
    }
    unless_holds(f, level_face(room, words, reals, f as usize))
}

// One face. The rules about its loop are asked where it has one.
fn face_tested(room: &[usize; 10], words: &[u32], reals: &[f64], rule: u32, f: u32) -> u64
    requires fit { Fit room.now words.now reals.now }
    requires f_value { face_whole room.now words.now f ≡ true }
    ensures { result ≡ face_tested (decode room.now words.now reals.now) rule f }
{
    if rule == NORMAL {
        return unless_holds(f, signed_axis(normal_of(room, words, reals, f as usize)));
    }
    let loops = list(room, words, FACE_LOOPS, f as usize).len();
    if rule == ONE_LOOP {
        return unless_holds(f, loops == 1);
    }
    if loops != 1 {
        return 0;
    }
    rim_tested(room, words, reals, rule, f)
}

// The first of the faces that breaks the rule.
pub fn faces_tested(
    room: &[usize; 10],
    words: &[u32],
    reals: &[f64],
    rule: u32,
    faces: &[u32],
) -> u64
    requires fit { Fit room.now words.now reals.now }
    requires faces_value { all (face_whole room.now words.now) faces.now ≡ true }
    ensures { result ≡ first_of (face_tested (decode room.now words.now reals.now) rule) faces.now }
{
    let mut n: u64 = 0;
    for face in faces {
        n = then(n, face_tested(room, words, reals, rule, *face));
    }
    n
}
