// Inner: the fan of a side as triangles, written one behind the other where they fit, and what is known of sides that were met (W-209).
#![tactic(auto)]

ghost use Rattle.std.specs.Prelude.{◌≡◌, true, [], ◌∷◌, map, ◌+◌, ◌≤◌, length};
ghost use Rattle.memory_layout.specs.Decode.{decode};
ghost use Rattle.memory_layout.specs.Fit.{Fit};
ghost use Rattle.inquire_fan.specs.Fan.{turned};
ghost use Rattle.inquire_fin_starts.specs.Starts.{start_point, Rim};
ghost use Rattle.inquire_sides.specs.Sides.{side_number, face_whole};
ghost use Rattle.stl_format.specs.Stl.{polygon_triangles, narrow_points};
ghost use Rattle.stl_triangles.specs.Spots.{drawn};
ghost use Rattle.stl_fan.specs.Pens.{Drawn};

use inquire_fan::corner;
use inquire_sides::{is_at, rim};
use memory_layout::layout::words_of;
use memory_layout::names::{AT_FACE_FRONT, FACES};
use stl_triangles::{narrow_point, put_triangle, spot_of};

// What is known of sides that were met: whether all their coordinates are binary32 values, and how many triangles they have.
#[derive(Clone, Copy)]
pub struct Pen {
    pub narrow: bool,
    pub count: usize,
}

// The triangles of a polygon, from a place on: are all its coordinates binary32 values?
fn draw_fan(
    room: &[usize; 10],
    words: &[u32],
    reals: &[f64],
    fins: &[u32],
    back: bool,
    bytes: &mut [u8],
    at: usize,
) -> bool
    requires fit { Fit room.now words.now reals.now }
    requires rim { Rim room.now words.now fins.now }
    requires in_bounds { (3 ≤ length fins.now) × (length fins.now ≤ 1024) }
    requires at_bound { at ≤ 0x800000000000 }
    ensures narrow { result ≡ narrow_points (turned back (map (start_point (decode room.now words.now reals.now)) fins.now)) }
    ensures drawn { bytes.new ≡ drawn at (polygon_triangles (turned back (map (start_point (decode room.now words.now reals.now)) fins.now))) bytes.old }
{
    let first = corner(room, words, reals, fins, back, 0);
    let second = corner(room, words, reals, fins, back, 1);
    let o = spot_of(first);
    let mut p = spot_of(second);
    let mut narrow = narrow_point(first) & narrow_point(second);
    for k in 1..fins.len() - 1 {
        let next = corner(room, words, reals, fins, back, k + 1);
        let q = spot_of(next);
        put_triangle(bytes, at + 50 * (k - 1), o, p, q);
        narrow = narrow & narrow_point(next);
        p = q;
    }
    narrow
}

// One side more, behind what was drawn.
pub fn with_side(
    room: &[usize; 10],
    words: &[u32],
    reals: &[f64],
    shell: u32,
    face: usize,
    t: Pen,
    bytes: &mut [u8],
) -> Pen
    requires fit { Fit room.now words.now reals.now }
    requires face_value { face_whole room.now words.now face ≡ true }
    requires face_value_2 { side_number room.now words.now shell face ≡ 0 }
    requires count_bound { t.count ≤ 0x100000000 }
    ensures drawn { Drawn (decode room.now words.now reals.now) (record { shell = shell; face = face } ∷ []) t result bytes.old bytes.new }
    ensures few { result.count ≤ t.count + 1024 }
{
    let fins = rim(room, words, face);
    let back = is_at(words_of(room, words, FACES, face), AT_FACE_FRONT, shell);
    let narrow = draw_fan(room, words, reals, fins, back, bytes, 84 + 50 * t.count);
    Pen {
        narrow: t.narrow & narrow,
        count: t.count + (fins.len() - 2),
    }
}
