// Inner: the edges and the vertices of a path by their rules (W-212): an edge's ends differ in exactly one coordinate; a vertex is on the grid. A repeated id gives the same number
// again, so that the first of the path is the first of the walk.
#![tactic(auto)]

ghost use Rattle.std.specs.Prelude.{◌≡◌, ◌≤◌, ◌<◌, length};
ghost use Rattle.meaning.specs.Model.{point_of};
ghost use Rattle.meaning.specs.Refuse.{first_of};
ghost use Rattle.meaning_slabs.specs.Slabs.{along_axis, grid_vertex};
ghost use Rattle.memory_layout.specs.Names.{EDGES, VERTICES};
ghost use Rattle.memory_layout.specs.Layout.{word};
ghost use Rattle.memory_layout.specs.Decode.{decode};
ghost use Rattle.memory_layout.specs.Fit.{Fit};
ghost use Rattle.walk_sources.specs.Sources.{Sources};
ghost use Rattle.walk_visits.specs.Visits.{ids_of};
ghost use Rattle.slab_edges.specs.Tested.{stands_at, id_tested};

use float_vectors::vector::Point3;
use inquire_corners::grid_point;
use memory_layout::layout::words_of;
use memory_layout::names::{
    AT_EDGE_END, AT_EDGE_END_ID, AT_EDGE_START, AT_EDGE_START_ID, EDGES, VERTICES,
};
use memory_reads::vertex_at;
use slab_axes::{differing, then, unless_holds};
use walk_sources::part;

// The rules, by their numbers: of an edge, of a vertex.
pub const ALONG: u32 = 4;

pub const GRID: u32 = 5;

// Is there an end at a place of an edge's words, and its vertex?
fn stands(edge: &[u32], at: usize, used: u32) -> bool
    requires { (length edge.now ≡ 16) × (at ≤ 2) }
    ensures { result ≡ stands_at edge.now at used }
{
    (edge[at] != 0) & (edge[at + 1] < used)
}

fn point_at(room: &[usize; 10], words: &[u32], reals: &[f64], i: usize) -> Point3
    requires fit { Fit room.now words.now reals.now }
    requires i_bound { i < word words.now VERTICES }
    ensures { result ≡ point_of (decode room.now words.now reals.now) i }
{
    vertex_at(room, words, reals, i).point
}

// Do the edge's ends differ in exactly one coordinate?
fn along_axis(room: &[usize; 10], words: &[u32], reals: &[f64], e: usize) -> bool
    requires fit { Fit room.now words.now reals.now }
    requires e_bound { e < word words.now EDGES }
    ensures { result ≡ along_axis (decode room.now words.now reals.now) e }
{
    let w = words_of(room, words, EDGES, e);
    let used = words[VERTICES];
    if !(stands(w, AT_EDGE_START, used) & stands(w, AT_EDGE_END, used)) {
        return false;
    }
    let p = point_at(room, words, reals, w[AT_EDGE_START_ID] as usize);
    let q = point_at(room, words, reals, w[AT_EDGE_END_ID] as usize);
    differing(p, q) == 1
}

// Is the vertex there, and on the grid?
fn grid_vertex(room: &[usize; 10], words: &[u32], reals: &[f64], v: usize) -> bool
    requires { Fit room.now words.now reals.now }
    ensures { result ≡ grid_vertex (decode room.now words.now reals.now) v }
{
    if words[VERTICES] as usize <= v {
        return false;
    }
    grid_point(point_at(room, words, reals, v))
}

// One id.
fn id_tested(room: &[usize; 10], words: &[u32], reals: &[f64], rule: u32, i: u32) -> u64
    requires { Fit room.now words.now reals.now }
    ensures { result ≡ id_tested (decode room.now words.now reals.now) rule i }
{
    if rule == GRID {
        return unless_holds(i, grid_vertex(room, words, reals, i as usize));
    }
    if words[EDGES] <= i {
        return 0;
    }
    unless_holds(i, along_axis(room, words, reals, i as usize))
}

// The first of the ids that breaks the rule.
fn ids_tested(room: &[usize; 10], words: &[u32], reals: &[f64], rule: u32, ids: &[u32]) -> u64
    requires { Fit room.now words.now reals.now }
    ensures { result ≡ first_of (id_tested (decode room.now words.now reals.now) rule) ids.now }
{
    let mut n: u64 = 0;
    for id in ids {
        n = then(n, id_tested(room, words, reals, rule, *id));
    }
    n
}

// Of those that the path's sources list.
pub fn path_tested(room: &[usize; 10], words: &[u32], reals: &[f64], rule: u32, path: &[u32]) -> u64
    requires fit { Fit room.now words.now reals.now }
    requires sources { Sources room.now words.now path.now }
    ensures { result ≡ first_of (id_tested (decode room.now words.now reals.now) rule) (ids_of room.now words.now path.now) }
{
    let mut buf = [0u32; 1024];
    let mut n: u64 = 0;
    for source in path {
        let k = part(room, words, *source, &mut buf);
        n = then(n, ids_tested(room, words, reals, rule, &buf[..k]));
    }
    n
}
