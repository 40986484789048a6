// Inner: where the fins of a loop start (`fin_vertices` and the points of `oriented_face_volume`, inquire.rs). A fin's words are owner, edge,
// sense, pcurve mark; an edge's begin with start tag, id, end tag, id.
#![tactic(auto)]

ghost use Rattle.std.specs.Prelude.{◌≡◌, true, ◌+◌, ◌≤◌, length};
ghost use Rattle.meaning.specs.Lists.{all};
ghost use Rattle.meaning.specs.Refuse.{first_of};
ghost use Rattle.memory_layout.specs.Names.{FINS, EDGES, AT_FIN_SENSE};
ghost use Rattle.memory_layout.specs.Layout.{word, words_of};
ghost use Rattle.memory_layout.specs.Decode.{decode};
ghost use Rattle.memory_layout.specs.Fit.{Fit, Lists};
ghost use Rattle.walk_sources.specs.Sources.{fin_edge};
ghost use Rattle.inquire_fin_starts.specs.Starts.{start_place, end_number, start_number, start_id, start_point, fin_whole, Whole};

use float_vectors::vector::Point3;
use memory_layout::layout::words_of;
use memory_layout::names::{
    AT_EDGE_END, AT_EDGE_START, AT_FIN_EDGE, AT_FIN_SENSE, EDGES, FINS, VERTICES,
};
use memory_reads::vertex_at;
use split_segment::refusals::{then, unless};

// Where the start stands in the edge's words: a fin that runs against its edge starts at the end.
fn start_place(sense: u32) -> usize
    ensures { (result ≡ start_place sense) × (result ≤ 2) }
{
    if sense == 0 {
        return AT_EDGE_START;
    }
    AT_EDGE_END
}

// The end at a place of an edge's words: none 7, its vertex missing 2.
fn end_refusal(edge: &[u32], at: usize, used: u32) -> u32
    requires { (length edge.now ≡ 16) × (at ≤ 2) }
    ensures { result ≡ end_number edge.now at used }
{
    then(unless(7, edge[at] != 0), unless(2, edge[at + 1] < used))
}

// The edge of a fin, as its words.
pub fn edge_of<'a>(room: &[usize; 10], words: &'a [u32], i: usize) -> &'a [u32]
    requires lists { Lists room.now words.now }
    requires whole { Whole room.now words.now i }
    ensures { result.now ≡ words_of room.now words.now EDGES (fin_edge room.now words.now i) }
{
    let fin = words_of(room, words, FINS, i);
    words_of(room, words, EDGES, fin[AT_FIN_EDGE] as usize)
}

pub fn place_of(room: &[usize; 10], words: &[u32], i: usize) -> usize
    requires lists { Lists room.now words.now }
    requires whole { Whole room.now words.now i }
    ensures { (result ≡ start_place (word (words_of room.now words.now FINS i) AT_FIN_SENSE)) × (result ≤ 2) }
{
    let fin = words_of(room, words, FINS, i);
    start_place(fin[AT_FIN_SENSE])
}

// The start of a fin: none 7, its vertex missing 2.
fn start_refusal(room: &[usize; 10], words: &[u32], i: usize) -> u32
    requires lists { Lists room.now words.now }
    requires whole { Whole room.now words.now i }
    ensures { result ≡ start_number room.now words.now i }
{
    let at = place_of(room, words, i);
    end_refusal(edge_of(room, words, i), at, words[VERTICES])
}

// The first refusal among the fins.
pub fn starts_refusal(room: &[usize; 10], words: &[u32], fins: &[u32]) -> u32
    requires lists { Lists room.now words.now }
    requires fins_value { all (fin_whole room.now words.now) fins.now ≡ true }
    ensures { result ≡ first_of (start_number room.now words.now) fins.now }
{
    let mut n = 0;
    for fin in fins {
        n = then(n, start_refusal(room, words, *fin as usize));
    }
    n
}

// The vertex at the start, behind that test.
fn start_id(room: &[usize; 10], words: &[u32], i: usize) -> u32
    requires lists { Lists room.now words.now }
    requires whole { Whole room.now words.now i }
    ensures { result ≡ start_id room.now words.now i }
{
    let at = place_of(room, words, i) + 1;
    let edge = edge_of(room, words, i);
    edge[at]
}

// Its point.
pub fn start_point(room: &[usize; 10], words: &[u32], reals: &[f64], i: usize) -> Point3
    requires fit { Fit room.now words.now reals.now }
    requires whole { Whole room.now words.now i }
    requires i_value { start_number room.now words.now i ≡ 0 }
    ensures { result ≡ start_point (decode room.now words.now reals.now) i }
{
    vertex_at(room, words, reals, start_id(room, words, i) as usize).point
}
