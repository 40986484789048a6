// What the tests of an edge read off the lent memory: `carrier` of euler.rs, and the two points. An edge's words are start
// tag, id, end tag, id, curve tag, id.
ghost use Rattle.std.specs.Prelude.{◌≡◌, ◌<◌, length};
ghost use Rattle.meaning.specs.Model.{point_of};
ghost use Rattle.memory_layout.specs.Names.{VERTICES};
ghost use Rattle.memory_layout.specs.Layout.{word};
ghost use Rattle.memory_layout.specs.Decode.{decode};
ghost use Rattle.memory_layout.specs.Fit.{Sized, Fit};
ghost use Rattle.split_segment.specs.Segment.{segment_at};
ghost use Rattle.split_bounds.specs.Ends.{carrier_refusal, ends_refusal};

use float_vectors::vector::Point3;
use memory_layout::layout::words_of;
use memory_layout::names::{
    AT_EDGE_CURVE, AT_EDGE_CURVE_ID, AT_EDGE_END, AT_EDGE_END_ID, AT_EDGE_START, AT_EDGE_START_ID,
    EDGES, VERTICES,
};
use memory_reads::carriers::{curve_found, line_refusal, the_line};
use memory_reads::vertex_at;
use split_segment::refusals::{then, unless};
use split_segment::segment::Segment;

// Tests 4 to 6, of the edge's words.
fn carrier_refusal(room: &[usize; 10], words: &[u32], reals: &[f64], w: &[u32]) -> u32
    requires sized { Sized room.now words.now reals.now }
    requires w_len { length w.now ≡ 16 }
    ensures { result ≡ carrier_refusal (decode room.now words.now reals.now) w.now }
{
    let line = line_refusal(curve_found(room, words, reals, w[AT_EDGE_CURVE_ID] as usize));
    let points = then(
        unless(2, w[AT_EDGE_START_ID] < words[VERTICES]),
        unless(2, w[AT_EDGE_END_ID] < words[VERTICES]),
    );
    let ends = unless(7, (w[AT_EDGE_START] != 0) & (w[AT_EDGE_END] != 0));
    then(
        ends,
        then(unless(1, w[AT_EDGE_CURVE] != 0), then(line, points)),
    )
}

// Tests 2 and 4 to 6.
pub fn ends_refusal(room: &[usize; 10], words: &[u32], reals: &[f64], edge: usize) -> u32
    requires { Fit room.now words.now reals.now }
    ensures { result ≡ ends_refusal (decode room.now words.now reals.now) edge }
{
    if words[EDGES] as usize <= edge {
        return 2;
    }
    carrier_refusal(room, words, reals, words_of(room, words, EDGES, edge))
}

fn point_at(room: &[usize; 10], words: &[u32], reals: &[f64], i: usize) -> Point3
    requires sized { Sized room.now words.now reals.now }
    requires i_bound { i < word words.now VERTICES }
    ensures { result ≡ point_of (decode room.now words.now reals.now) i }
{
    vertex_at(room, words, reals, i).point
}

// The edge's line and points, behind those tests.
pub fn segment_at(room: &[usize; 10], words: &[u32], reals: &[f64], edge: usize) -> Segment
    requires fit { Fit room.now words.now reals.now }
    requires edge_value { ends_refusal (decode room.now words.now reals.now) edge ≡ 0 }
    ensures { result ≡ segment_at (decode room.now words.now reals.now) edge }
{
    let w = words_of(room, words, EDGES, edge);
    Segment {
        line: the_line(curve_found(room, words, reals, w[AT_EDGE_CURVE_ID] as usize)),
        start: point_at(room, words, reals, w[AT_EDGE_START_ID] as usize),
        end: point_at(room, words, reals, w[AT_EDGE_END_ID] as usize),
    }
}
