// Rows 1 and 3 to 8, each of what it reads. An edge's words are start tag, id, end tag, id, curve tag, id.
ghost use Rattle.std.specs.Prelude.{◌≡◌, ◌≤◌, length};
ghost use Rattle.meaning.specs.Lists.{joined};
ghost use Rattle.meaning_stops.specs.Splits.{row1};
ghost use Rattle.memory_layout.specs.Decode.{decode};
ghost use Rattle.memory_layout.specs.Fit.{Sized, Lists};
ghost use Rattle.split_stop_parts.specs.Told.{row_told};
ghost use Rattle.split_stop_edge.specs.EdgeRows.{pcurve_parts, ends_told, curve_told, vertices_told, carried_told, span_told};

use float_vectors::vector::is_finite;
use geom_signs::{increasing, span};
use memory_layout::layout::words_of;
use memory_layout::names::{
    AT_EDGE_CURVE, AT_EDGE_CURVE_ID, AT_EDGE_END, AT_EDGE_END_ID, AT_EDGE_START, AT_EDGE_START_ID,
    AT_FIN_PCURVE, CURVES, FINS, VERTICES,
};
use memory_reads::carriers::{curve_found, line_refusal};
use split_segment::refusals::unless;
use split_segment::segment::{Segment, is_positive};
use split_stop_parts::{Stop, first, of_edge, on_edge, stop_at};

// Row 1.
pub fn fraction_stop(asked: usize, t: f64) -> Stop
    ensures { result ≡ row_told 1 (row1 asked t) }
{
    let above = on_edge(1, 2, unless(1, 0.0 < t), asked);
    let below = on_edge(1, 3, unless(1, t < 1.0), asked);
    first(
        on_edge(1, 1, unless(1, is_finite(t)), asked),
        first(above, below),
    )
}

// Row 3, of one fin.
fn pcurve_stop(room: &[usize; 10], words: &[u32], edge: usize, fin: usize) -> Stop
    requires { Lists room.now words.now }
    ensures { result ≡ row_told 3 (pcurve_parts room.now words.now edge fin) }
{
    if words[FINS] as usize <= fin {
        return of_edge(3, 1, 2, 5, fin, edge);
    }
    let w = words_of(room, words, FINS, fin);
    of_edge(3, 2, unless(7, w[AT_FIN_PCURVE] == 0), 5, fin, edge)
}

// Row 3: of the fins in list order the first that refuses.
pub fn pcurves_stop(room: &[usize; 10], words: &[u32], edge: usize, fins: &[u32]) -> Stop
    requires { Lists room.now words.now }
    ensures { result ≡ row_told 3 (joined (pcurve_parts room.now words.now edge) fins.now) }
{
    let mut stop = stop_at(0, 0, 0, 10, 0, 10, 0);
    for fin in fins {
        stop = first(stop, pcurve_stop(room, words, edge, *fin as usize));
    }
    stop
}

// Row 4, of the edge's words.
fn ends_stop(w: &[u32], edge: usize) -> Stop
    requires { length w.now ≡ 16 }
    ensures { result ≡ ends_told w.now edge }
{
    let start = on_edge(4, 1, unless(7, w[AT_EDGE_START] != 0), edge);
    let end = on_edge(4, 2, unless(7, w[AT_EDGE_END] != 0), edge);
    first(start, end)
}

// Row 5.
fn curve_stop(room: &[usize; 10], words: &[u32], reals: &[f64], w: &[u32], edge: usize) -> Stop
    requires sized { Sized room.now words.now reals.now }
    requires w_len { length w.now ≡ 16 }
    ensures { result ≡ curve_told (decode room.now words.now reals.now) w.now edge }
{
    let id = w[AT_EDGE_CURVE_ID] as usize;
    let named = on_edge(5, 1, unless(1, w[AT_EDGE_CURVE] != 0), edge);
    let there = of_edge(5, 2, unless(2, id < words[CURVES] as usize), 8, id, edge);
    let line = line_refusal(curve_found(room, words, reals, id));
    first(named, first(there, of_edge(5, 3, line, 8, id, edge)))
}

// Row 6.
fn vertices_stop(words: &[u32], w: &[u32], edge: usize) -> Stop
    requires in_bounds { 11 ≤ length words.now }
    requires w_len { length w.now ≡ 16 }
    ensures { result ≡ vertices_told words.now w.now edge }
{
    let start = w[AT_EDGE_START_ID];
    let end = w[AT_EDGE_END_ID];
    let used = words[VERTICES];
    first(
        of_edge(6, 1, unless(2, start < used), 7, start as usize, edge),
        of_edge(6, 2, unless(2, end < used), 7, end as usize, edge),
    )
}

// Rows 4 to 6.
pub fn carrier_stop(
    room: &[usize; 10],
    words: &[u32],
    reals: &[f64],
    w: &[u32],
    edge: usize,
) -> Stop
    requires sized { Sized room.now words.now reals.now }
    requires w_len { length w.now ≡ 16 }
    ensures { result ≡ carried_told (decode room.now words.now reals.now) words.now w.now edge }
{
    let ends = ends_stop(w, edge);
    let curve = curve_stop(room, words, reals, w, edge);
    first(ends, first(curve, vertices_stop(words, w, edge)))
}

// Rows 7 and 8: the edge's line and points, its id and those of its ends.
pub fn span_stop(segment: Segment, edge: usize, start: usize, end: usize) -> Stop
    ensures { result ≡ span_told segment edge start end }
{
    let lo = segment.lo();
    let hi = segment.hi();
    let increases = is_positive(increasing(segment.line.direction, segment.start, segment.end));
    let from = of_edge(8, 1, unless(7, is_finite(lo)), 7, start, edge);
    let to = of_edge(8, 2, unless(7, is_finite(hi)), 7, end, edge);
    let long = on_edge(8, 3, unless(7, is_positive(span(lo, hi))), edge);
    first(
        on_edge(7, 1, unless(4, increases), edge),
        first(from, first(to, long)),
    )
}
