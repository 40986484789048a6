// Row 11 of the fins of an edge, in list order. A fin's words are owner, edge, sense, pcurve mark.
ghost use Rattle.std.specs.Prelude.{◌≡◌, [], ◌≤◌, ◌<◌, Float, length, take, get_or};
ghost use Rattle.meaning_stops.specs.Splits.{row11-fins};
ghost use Rattle.memory_layout.specs.Names.{LOOPS};
ghost use Rattle.memory_layout.specs.Layout.{word};
ghost use Rattle.memory_layout.specs.Decode.{decode};
ghost use Rattle.memory_layout.specs.Fit.{Fit, Lists};
ghost use Rattle.split_fins.specs.Facts.{Present};
ghost use Rattle.split_fin_tests.specs.FinTests.{cut_at};
ghost use Rattle.split_stop_parts.specs.Told.{row_told};
ghost use Rattle.split_stop_place.specs.FinRows.{use_told, loop_told, fin_told};

use crate::faces::face_stop;
use memory_layout::layout::words_of;
use memory_layout::names::{AT_FIN_EDGE, AT_FIN_LOOP, FINS, LOOP_FINS, LOOPS};
use memory_lists::list;
use split_fin_tests::faces::Cut;
use split_fins::{face_of, owner_of};
use split_room::wires::count_of;
use split_segment::refusals::unless;
use split_stop_parts::{Stop, first, of_edge, stop_at};
use walk_marks::has;

// Parts 1 to 3 of fin k: repeated, another edge's, its loop missing.
fn use_stop(room: &[usize; 10], words: &[u32], fins: &[u32], k: usize, edge: usize) -> Stop
    requires lists { Lists room.now words.now }
    requires present { Present words.now fins.now }
    requires k_in_bounds { k < length fins.now }
    ensures { result ≡ use_told room.now words.now edge (take k fins.now) (get_or fins.now k 0) }
{
    let fin = fins[k] as usize;
    let w = words_of(room, words, FINS, fin);
    let once = unless(1, !has(&fins[..k], fins[k]));
    let own = unless(1, w[AT_FIN_EDGE] as usize == edge);
    let there = unless(2, w[AT_FIN_LOOP] < words[LOOPS]);
    first(
        of_edge(11, 1, once, 5, fin, edge),
        first(
            of_edge(11, 2, own, 5, fin, edge),
            stop_at(11, 3, there, 4, w[AT_FIN_LOOP] as usize, 5, fin),
        ),
    )
}

// From part 4 on, of a fin and its loop.
fn loop_stop(
    room: &[usize; 10],
    words: &[u32],
    reals: &[f64],
    fin: usize,
    owner: usize,
    cut: Cut,
) -> Stop
    requires fit { Fit room.now words.now reals.now }
    requires owner_bound { owner < word words.now LOOPS }
    ensures { result ≡ loop_told room.now words.now reals.now fin owner cut }
{
    let times = count_of(list(room, words, LOOP_FINS, owner), fin);
    let face = face_of(room, words, owner);
    first(
        stop_at(11, 4, unless(1, times == 1), 5, fin, 4, owner),
        face_stop(room, words, reals, face, fin, owner, cut),
    )
}

// Fin k.
fn fin_stop(
    room: &[usize; 10],
    words: &[u32],
    reals: &[f64],
    fins: &[u32],
    k: usize,
    edge: usize,
    cut: Cut,
) -> Stop
    requires fit { Fit room.now words.now reals.now }
    requires present { Present words.now fins.now }
    requires k_in_bounds { k < length fins.now }
    ensures { result ≡ fin_told room.now words.now reals.now edge cut (take k fins.now) (get_or fins.now k 0) }
{
    let used = use_stop(room, words, fins, k, edge);
    if used.number != 0 {
        return used;
    }
    let fin = fins[k] as usize;
    let owner = owner_of(room, words, fin);
    loop_stop(room, words, reals, fin, owner, cut)
}

// Row 11: of the fins the first that refuses, for the cut of any fraction.
pub fn fins_stop(
    room: &[usize; 10],
    words: &[u32],
    reals: &[f64],
    fins: &[u32],
    edge: usize,
    cut: Cut,
) -> Stop
    requires fit { Fit room.now words.now reals.now }
    requires present { Present words.now fins.now }
    requires fins_len_bound { length fins.now ≤ 8 }
    ensures { (t : Float) → cut ≡ cut_at (decode room.now words.now reals.now) edge t → result ≡ row_told 11 (row11-fins (decode room.now words.now reals.now) edge t [] fins.now) }
{
    let mut stop = stop_at(0, 0, 0, 10, 0, 10, 0);
    for k in 0..fins.len() {
        stop = first(stop, fin_stop(room, words, reals, fins, k, edge, cut));
    }
    stop
}
