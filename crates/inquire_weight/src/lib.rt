// Inner: what sides weigh in whole numbers (W-201), met one after the other: whether a point is off the grid, how many triangles their fans have, and six times their
// volume, what is above zero and what is below it apart.
#![tactic(auto)]

ghost use Rattle.std.specs.Prelude.{◌≡◌, ◌^◌, ◌≤◌, true, List, [], ◌∷◌, ◌++◌, map, unsigned_abs};
ghost use Rattle.float_values.specs.Laws.Pairs.{over, under};
ghost use Rattle.meaning.specs.Inquire.{Side};
ghost use Rattle.meaning_sheets.specs.Sheets.{grid_points, whole_side};
ghost use Rattle.memory_layout.specs.Decode.{decode};
ghost use Rattle.memory_layout.specs.Fit.{Fit};
ghost use Rattle.inquire_fin_starts.specs.Starts.{start_point};
ghost use Rattle.inquire_sides.specs.Sides.{rim_of, side_number, face_whole};
ghost use Rattle.inquire_weight.specs.Weights.{capped, no_weight, weight_of};

use inquire_sides::{is_at, rim};
use inquire_whole_fan::{grid_points, whole_polygon};
use memory_layout::layout::words_of;
use memory_layout::names::{AT_FACE_FRONT, FACES};
use std::num::wrapping_add_u64;

// What is known of sides that were met. Above 4,096 the triangles are 4,097; there, and where a point is off the grid, the sums are 0.
#[derive(Clone, Copy)]
pub struct Weight {
    pub off: bool,
    pub triangles: usize,
    pub plus: u64,
    pub minus: u64,
}

// Of no side.
pub fn no_weight() -> Weight
    ensures { result ≡ no_weight }
{
    Weight {
        off: false,
        triangles: 0,
        plus: 0,
        minus: 0,
    }
}

fn capped(n: usize) -> usize
    ensures { result ≡ capped n }
{
    if 4096 < n {
        return 4097;
    }
    n
}

// What a number is above zero, and below it.
pub fn above(v: i64) -> u64
    requires { unsigned_abs v ≤ 2 ^ 62 }
    ensures { result ≡ over v }
{
    if v < 0 {
        return 0;
    }
    v as u64
}

pub fn below(v: i64) -> u64
    requires { unsigned_abs v ≤ 2 ^ 62 }
    ensures { result ≡ under v }
{
    if v < 0 {
        return (0 - v) as u64;
    }
    0
}

// Six times the volume that a side adds, as `side_volume` has it in floats.
fn whole_side(room: &[usize; 10], words: &[u32], reals: &[f64], shell: u32, face: usize) -> i64
    requires fit { Fit room.now words.now reals.now }
    requires face_value { face_whole room.now words.now face ≡ true }
    requires face_value_2 { side_number room.now words.now shell face ≡ 0 }
    requires face_value_3 { grid_points (map (start_point (decode room.now words.now reals.now)) (rim_of room.now words.now face)) ≡ true }
    ensures { result ≡ whole_side (decode room.now words.now reals.now) (record { shell = shell; face = face }) }
{
    let back = is_at(words_of(room, words, FACES, face), AT_FACE_FRONT, shell);
    whole_polygon(room, words, reals, rim(room, words, face), back)
}

// Of one side more. No sum wraps: 4,096 triangles are at most 3·2^60 in size.
pub fn with_weight(
    room: &[usize; 10],
    words: &[u32],
    reals: &[f64],
    shell: u32,
    face: usize,
    w: Weight,
) -> Weight
    requires fit { Fit room.now words.now reals.now }
    requires face_value { face_whole room.now words.now face ≡ true }
    requires face_value_2 { side_number room.now words.now shell face ≡ 0 }
    ensures { (l : List Side) → w ≡ weight_of (decode room.now words.now reals.now) l → result ≡ weight_of (decode room.now words.now reals.now) (l ++ (record { shell = shell; face = face } ∷ [])) }
{
    let fins = rim(room, words, face);
    let off = w.off | !grid_points(room, words, reals, fins);
    let triangles = capped(capped(w.triangles) + (fins.len() - 2));
    if off | (4096 < triangles) {
        return Weight {
            off,
            triangles,
            plus: 0,
            minus: 0,
        };
    }
    let v = whole_side(room, words, reals, shell, face);
    Weight {
        off,
        triangles,
        plus: wrapping_add_u64(w.plus, above(v)),
        minus: wrapping_add_u64(w.minus, below(v)),
    }
}
