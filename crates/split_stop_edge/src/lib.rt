// Inner: why an edge's own records refuse a split, rows 1 to 8 of 01's tests: `edge_stop`. `bounds_stop` is rows 4 to 8. The module `parts` has the rows, each of what it reads.
#![tactic(auto)]

pub mod parts;

ghost use Rattle.std.specs.Prelude.{◌≡◌, ◌<◌};
ghost use Rattle.meaning_stops.specs.Stops.{first_stop};
ghost use Rattle.memory_layout.specs.Names.{EDGES};
ghost use Rattle.memory_layout.specs.Layout.{word};
ghost use Rattle.memory_layout.specs.Decode.{decode};
ghost use Rattle.memory_layout.specs.Fit.{Fit};
ghost use Rattle.split_stop_parts.specs.Told.{told};
ghost use Rattle.split_stop_edge.specs.EdgeRows.{bounds_rows, edge_rows};

use crate::parts::{carrier_stop, fraction_stop, pcurves_stop, span_stop};
use memory_layout::layout::words_of;
use memory_layout::names::{AT_EDGE_END_ID, AT_EDGE_START_ID, EDGE_FINS, EDGES};
use memory_lists::list;
use split_bounds::ends::segment_at;
use split_stop_parts::{Stop, first, on_edge};

// Rows 4 to 8.
pub fn bounds_stop(room: &[usize; 10], words: &[u32], reals: &[f64], edge: usize) -> Stop
    requires fit { Fit room.now words.now reals.now }
    requires edge_bound { edge < word words.now EDGES }
    ensures { result ≡ told (first_stop (bounds_rows (decode room.now words.now reals.now) edge)) }
{
    let w = words_of(room, words, EDGES, edge);
    let carried = carrier_stop(room, words, reals, w, edge);
    if carried.number != 0 {
        return carried;
    }
    span_stop(
        segment_at(room, words, reals, edge),
        edge,
        w[AT_EDGE_START_ID] as usize,
        w[AT_EDGE_END_ID] as usize,
    )
}

// Rows 1 to 8, of the edge that was asked about and what it is for the office.
pub fn edge_stop(
    room: &[usize; 10],
    words: &[u32],
    reals: &[f64],
    asked: usize,
    edge: usize,
    fraction: f64,
) -> Stop
    requires { Fit room.now words.now reals.now }
    ensures { result ≡ told (first_stop (edge_rows (decode room.now words.now reals.now) asked edge fraction)) }
{
    let place = fraction_stop(asked, fraction);
    if words[EDGES] as usize <= edge {
        return first(place, on_edge(2, 1, 2, asked));
    }
    let pcurves = pcurves_stop(room, words, edge, list(room, words, EDGE_FINS, edge));
    first(place, first(pcurves, bounds_stop(room, words, reals, edge)))
}
