// Inner: why the place of a split and the edge's fins refuse it, rows 9 to 11 of 01's tests: `place_stop`. The module `fins` has row 11, `faces` its parts from the face on.
#![tactic(auto)]

pub mod faces;
pub mod fins;

ghost use Rattle.std.specs.Prelude.{◌≡◌};
ghost use Rattle.meaning_stops.specs.Stops.{first_stop};
ghost use Rattle.memory_layout.specs.Decode.{decode};
ghost use Rattle.memory_layout.specs.Fit.{Fit};
ghost use Rattle.split_place.specs.SplitNumber.{edge_row};
ghost use Rattle.split_stop_parts.specs.Told.{told};
ghost use Rattle.split_stop_place.specs.PlaceRows.{place_rows, point_told};

use crate::fins::fins_stop;
use float_vectors::vector::Point3;
use geom_signs::apart;
use memory_layout::layout::words_of;
use memory_layout::names::{AT_EDGE_END_ID, AT_EDGE_START_ID, EDGE_FINS, EDGES, PRECISION};
use memory_lists::list;
use split_bounds::ends::segment_at;
use split_place::{cut_of, edge_tolerance};
use split_segment::refusals::unless;
use split_segment::segment::{Segment, is_positive};
use split_stop_parts::{Stop, first, of_edge, on_edge};

// Rows 9 and 10: of the edge's line and points, its id and those of its ends.
fn point_stop(
    segment: Segment,
    at: Point3,
    precision: f64,
    edge: usize,
    start: usize,
    end: usize,
) -> Stop
    ensures { result ≡ point_told segment at precision edge start end }
{
    let from = is_positive(apart(at, segment.start, precision));
    let to = is_positive(apart(at, segment.end, precision));
    first(
        on_edge(9, 1, unless(4, at.is_finite()), edge),
        first(
            of_edge(10, 1, unless(4, from), 7, start, edge),
            of_edge(10, 2, unless(4, to), 7, end, edge),
        ),
    )
}

// Rows 9 to 11, behind those before.
pub fn place_stop(
    room: &[usize; 10],
    words: &[u32],
    reals: &[f64],
    edge: usize,
    fraction: f64,
) -> Stop
    requires fit { Fit room.now words.now reals.now }
    requires fraction_value { edge_row (decode room.now words.now reals.now) edge fraction ≡ 0 }
    ensures { result ≡ told (first_stop (place_rows (decode room.now words.now reals.now) edge fraction)) }
{
    let w = words_of(room, words, EDGES, edge);
    let start = w[AT_EDGE_START_ID] as usize;
    let end = w[AT_EDGE_END_ID] as usize;
    let segment = segment_at(room, words, reals, edge);
    let cut = cut_of(segment, fraction, edge_tolerance(room, words, reals, edge));
    let point = point_stop(segment, cut.at, reals[PRECISION], edge, start, end);
    let fins = list(room, words, EDGE_FINS, edge);
    first(point, fins_stop(room, words, reals, fins, edge, cut))
}
