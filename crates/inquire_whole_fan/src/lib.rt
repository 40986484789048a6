// Inner: the fan of a loop in whole numbers (W-201), of the points of `inquire_fan`, in their order: whether they are on the grid, and six times the volume of the
// cone from the origin to their polygon.
#![tactic(auto)]

ghost use Rattle.std.specs.Prelude.{◌≡◌, true, map, ◌<◌, ◌≤◌, length, get_or};
ghost use Rattle.meaning_sheets.specs.Sheets.{corner, grid_points, whole_polygon};
ghost use Rattle.memory_layout.specs.Decode.{decode};
ghost use Rattle.memory_layout.specs.Fit.{Fit};
ghost use Rattle.inquire_fin_starts.specs.Starts.{start_point, Rim};
ghost use Rattle.inquire_fan.specs.Fan.{origin_p, turned};
ghost use Rattle.inquire_corners.specs.Seen.{seen};

use inquire_corners::{Corner, counted, grid_point, wedge};
use inquire_fan::corner;
use inquire_fin_starts::start_point;

// Are all points of the fan on the grid?
pub fn grid_points(room: &[usize; 10], words: &[u32], reals: &[f64], fins: &[u32]) -> bool
    requires fit { Fit room.now words.now reals.now }
    requires rim { Rim room.now words.now fins.now }
    ensures { result ≡ grid_points (map (start_point (decode room.now words.now reals.now)) fins.now) }
{
    let mut on = true;
    for fin in fins {
        let p = start_point(room, words, reals, *fin as usize);
        on = on & grid_point(p);
    }
    on
}

// Corner k of the polygon, in sixteenths.
fn counted_corner(
    room: &[usize; 10],
    words: &[u32],
    reals: &[f64],
    fins: &[u32],
    back: bool,
    k: usize,
) -> Corner
    requires fit { Fit room.now words.now reals.now }
    requires rim { Rim room.now words.now fins.now }
    requires fins_value { grid_points (map (start_point (decode room.now words.now reals.now)) fins.now) ≡ true }
    requires k_in_bounds { k < length fins.now }
    ensures { seen result ≡ corner (get_or (turned back (map (start_point (decode room.now words.now reals.now)) fins.now)) k origin_p) }
{
    counted(corner(room, words, reals, fins, back, k))
}

// Six times the signed volume of the cone from the origin to the polygon of the corners.
pub fn whole_polygon(
    room: &[usize; 10],
    words: &[u32],
    reals: &[f64],
    fins: &[u32],
    back: bool,
) -> i64
    requires fit { Fit room.now words.now reals.now }
    requires rim { Rim room.now words.now fins.now }
    requires fins_value { grid_points (map (start_point (decode room.now words.now reals.now)) fins.now) ≡ true }
    requires in_bounds { (3 ≤ length fins.now) × (length fins.now ≤ 1024) }
    ensures { result ≡ whole_polygon (map corner (turned back (map (start_point (decode room.now words.now reals.now)) fins.now))) }
{
    let o = counted_corner(room, words, reals, fins, back, 0);
    let mut p = counted_corner(room, words, reals, fins, back, 1);
    let mut acc: i64 = 0;
    for k in 1..fins.len() - 1 {
        let q = counted_corner(room, words, reals, fins, back, k + 1);
        acc = acc + wedge(o, p, q);
        p = q;
    }
    acc
}
