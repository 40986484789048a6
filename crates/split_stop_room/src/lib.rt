// Inner: why wire shells, tables and lists do not take what a split adds, rows 12 and 13 of 01's tests: `room_stop`.
#![tactic(auto)]

ghost use Rattle.std.specs.Prelude.{◌≡◌, map, ◌≤◌, ◌<◌, length};
ghost use Rattle.meaning.specs.Lists.{run};
ghost use Rattle.meaning_stops.specs.Stops.{first_stop};
ghost use Rattle.memory_layout.specs.Names.{SHELLS};
ghost use Rattle.memory_layout.specs.Layout.{word};
ghost use Rattle.memory_layout.specs.Decode.{decode};
ghost use Rattle.memory_layout.specs.Fit.{Fit, Lists};
ghost use Rattle.split_place.specs.Facts.{Owned};
ghost use Rattle.memory_layout.specs.Limits.{limits};
ghost use Rattle.split_place.specs.SplitNumber.{edge_row, place_row};
ghost use Rattle.split_stop_parts.specs.Told.{told, row_told, tell};
ghost use Rattle.split_stop_room.specs.RoomRows.{room_rows, shell_part, loop_part, tables_told};

use memory_layout::names::{EDGE_FINS, EDGES, FINS, SHELLS, VERTICES};
use memory_lists::list;
use split_fins::owner_of;
use split_room::tables::loop_fits;
use split_room::wires::wires_ok;
use split_segment::refusals::unless;
use split_stop_parts::{Stop, first, on_edge, stop_at};

// The first shell of the table whose wire edges refuse, told by a row and a part of it, with a refusal: those that list the edge twice, or, where one more is asked for, those without a slot.
fn shells_stop(
    room: &[usize; 10],
    words: &[u32],
    edge: usize,
    more: bool,
    row: u32,
    place: u32,
    refusal: u32,
) -> Stop
    requires { Lists room.now words.now }
    ensures { result ≡ row_told row (map (shell_part room.now words.now edge more place refusal) (run 0 (word words.now SHELLS))) }
{
    let shells = words[SHELLS] as usize;
    let mut stop = stop_at(0, 0, 0, 10, 0, 10, 0);
    for s in 0..shells {
        let number = unless(refusal, wires_ok(room, words, edge, more, s));
        stop = first(stop, stop_at(row, place, number, 2, s, 10, 0));
    }
    stop
}

// Row 13, part 5, of fin k: its loop.
fn loop_stop(room: &[usize; 10], words: &[u32], fins: &[u32], k: usize) -> Stop
    requires lists { Lists room.now words.now }
    requires owned { Owned room.now words.now fins.now }
    requires k_in_bounds { k < length fins.now }
    ensures { result ≡ tell 13 (loop_part room.now words.now fins.now (word fins.now k)) }
{
    let fin = fins[k] as usize;
    let owner = owner_of(room, words, fin);
    let number = unless(8, loop_fits(room, words, fins, k));
    stop_at(13, 5, number, 4, owner, 5, fin)
}

// Row 13, part 5: of the edge's fins the first whose loop has no slots.
fn loops_stop(room: &[usize; 10], words: &[u32], fins: &[u32]) -> Stop
    requires lists { Lists room.now words.now }
    requires owned { Owned room.now words.now fins.now }
    requires fins_len_bound { length fins.now ≤ 8 }
    ensures { result ≡ row_told 13 (map (loop_part room.now words.now fins.now) fins.now) }
{
    let mut stop = stop_at(0, 0, 0, 10, 0, 10, 0);
    for k in 0..fins.len() {
        stop = first(stop, loop_stop(room, words, fins, k));
    }
    stop
}

// Row 13, parts 1 to 4: the tables of fins, edges and vertices, and the new edge's own list.
fn tables_stop(room: &[usize; 10], words: &[u32], edge: usize, n: usize) -> Stop
    requires lists { Lists room.now words.now }
    requires n_bound { n ≤ 8 }
    ensures { result ≡ tables_told room.now words.now edge n }
{
    let fins = words[FINS] as usize + n <= room[FINS];
    let edges = words[EDGES] as usize + 1 <= room[EDGES];
    let vertices = words[VERTICES] as usize + 1 <= room[VERTICES];
    first(
        on_edge(13, 1, unless(8, fins), edge),
        first(
            on_edge(13, 2, unless(8, edges), edge),
            first(
                on_edge(13, 3, unless(8, vertices), edge),
                on_edge(13, 4, unless(8, n <= 8), edge),
            ),
        ),
    )
}

// Rows 12 and 13, behind those before.
pub fn room_stop(
    room: &[usize; 10],
    words: &[u32],
    reals: &[f64],
    edge: usize,
    fraction: f64,
) -> Stop
    requires fit { Fit room.now words.now reals.now }
    requires fraction_value { edge_row (decode room.now words.now reals.now) edge fraction ≡ 0 }
    requires fraction_value_2 { place_row (decode room.now words.now reals.now) edge fraction ≡ 0 }
    ensures { result ≡ told (first_stop (room_rows (limits room.now) (decode room.now words.now reals.now) edge)) }
{
    let fins = list(room, words, EDGE_FINS, edge);
    let wires = shells_stop(room, words, edge, false, 12, 1, 1);
    let tables = tables_stop(room, words, edge, fins.len());
    let loops = loops_stop(room, words, fins);
    let slots = shells_stop(room, words, edge, true, 13, 6, 8);
    first(wires, first(tables, first(loops, slots)))
}
