// Inner: where a walk's ids stand. A source is a record and which of its lists, in one word, 8 times the id and the list's number, and its
// part the ids that it lists. The faces of a shell, its wire edges and acorn vertices are lists; a loop's list of fins stands for
// the edges that they name, and an edge's for its ends.
#![tactic(auto)]

ghost use Rattle.std.specs.Prelude.{◌≡◌, true, map, ◌+◌, ◌*◌, ◌<◌, ◌≤◌, ltb, length};
ghost use Rattle.meaning.specs.Lists.{all, joined, listed};
ghost use Rattle.memory_layout.specs.Names.{FINS};
ghost use Rattle.memory_layout.specs.Layout.{word};
ghost use Rattle.memory_layout.specs.Entries.{list_of};
ghost use Rattle.memory_layout.specs.Fit.{Lists};
ghost use Rattle.walk_marks.specs.Marks.{puts};
ghost use Rattle.walk_sources.specs.Sources.{fin_edge, end_of, ends_in, part_of, sourced, followed, Source, Took};

use memory_layout::layout::words_of;
use memory_layout::names::{
    AT_EDGE_END, AT_EDGE_END_ID, AT_EDGE_START, AT_EDGE_START_ID, AT_FIN_EDGE, BODIES, EDGE_FINS,
    EDGES, FACES, FINS, LOOP_FINS, LOOPS, REGIONS, SHELLS, VERTICES,
};
use memory_lists::list;
use walk_marks::{all_below, put, put_all};

// The table whose records have the list, and the table that its entries are of.
const TABLES: [usize; 8] = [BODIES, REGIONS, SHELLS, SHELLS, SHELLS, FACES, LOOPS, EDGES];

const ENTRIES: [usize; 8] = [REGIONS, SHELLS, FACES, EDGES, VERTICES, LOOPS, FINS, FINS];

// The edges that the fins name, in order.
fn fin_edges(room: &[usize; 10], words: &[u32], fins: &[u32], buf: &mut [u32])
    requires lists { Lists room.now words.now }
    requires fins_value { all (λ x. ltb x (word words.now FINS)) fins.now ≡ true }
    ensures { buf.new ≡ puts buf.old 0 (map (fin_edge room.now words.now) fins.now) }
{
    for (k, id) in fins.iter().enumerate() {
        let fin = words_of(room, words, FINS, *id as usize);
        put(buf, k, fin[AT_FIN_EDGE]);
    }
}

// Puts an end at place n, unless it is none, and returns the next place.
fn put_end(buf: &mut [u32], n: usize, tag: u32, x: u32) -> usize
    requires { n ≤ 1 }
    ensures { (result ≡ n + length (end_of tag x)) × (buf.new ≡ puts buf.old n (end_of tag x)) }
{
    if tag == 0 {
        return n;
    }
    put(buf, n, x);
    n + 1
}

// The ends of an edge, start then end, off its own words.
fn ends(edge: &[u32], buf: &mut [u32]) -> usize
    requires { length edge.now ≡ 16 }
    ensures { Took (ends_in edge.now) buf.old buf.new result }
{
    let n = put_end(buf, 0, edge[AT_EDGE_START], edge[AT_EDGE_START_ID]);
    put_end(buf, n, edge[AT_EDGE_END], edge[AT_EDGE_END_ID])
}

// Puts a source's part into the front of the buffer and returns how many ids it has.
pub fn part(room: &[usize; 10], words: &[u32], source: u32, buf: &mut [u32]) -> usize
    requires lists { Lists room.now words.now }
    requires source { Source room.now words.now source }
    ensures { Took (part_of room.now words.now source) buf.old buf.new result }
{
    let j = (source % 8) as usize;
    let i = (source / 8) as usize;
    if j == EDGE_FINS {
        return ends(words_of(room, words, EDGES, i), buf);
    }
    let ids = list(room, words, j, i);
    if j == LOOP_FINS {
        fin_edges(room, words, ids, buf);
        return ids.len();
    }
    put_all(buf, 0, ids);
    ids.len()
}

// Puts the ids into the path from place m on, as sources of list k.
pub fn add_sources(path: &mut [u32], m: usize, k: u32, ids: &[u32])
    requires ids_bound { (m + length ids.now ≤ 4294967296) × (k < 8) }
    requires ids_value { all (λ x. ltb x 4096) ids.now ≡ true }
    ensures { path.new ≡ puts path.old m (sourced k ids.now) }
{
    for (i, id) in ids.iter().enumerate() {
        put(path, m + i, 8 * *id + k);
    }
}

// Do record i of list j's table and all that it lists exist?
fn record_followed(room: &[usize; 10], words: &[u32], j: usize, i: usize) -> bool
    requires lists { Lists room.now words.now }
    requires j_bound { j < 8 }
    ensures { result ≡ followed room.now words.now j i }
{
    if words[TABLES[j]] as usize <= i {
        return false;
    }
    all_below(list(room, words, j, i), words[ENTRIES[j]])
}

// Do the records that the ids name, and all that their list j has, exist?
pub fn all_followed(room: &[usize; 10], words: &[u32], j: usize, ids: &[u32]) -> bool
    requires lists { Lists room.now words.now }
    requires j_bound { j < 8 }
    ensures { result ≡ all (followed room.now words.now j) ids.now }
{
    let mut ok = true;
    for id in ids {
        ok = ok & record_followed(room, words, j, *id as usize);
    }
    ok
}

// Puts what list j of the records has, one after the other, into the path from place m on, as sources of list k, and returns the next
// place.
pub fn gather(
    room: &[usize; 10],
    words: &[u32],
    j: usize,
    ids: &[u32],
    k: u32,
    path: &mut [u32],
    m: usize,
) -> usize
    requires lists { Lists room.now words.now }
    requires j_bound { (j < 8) × (k < 8) × (m + 1024 * length ids.now ≤ 4294967296) }
    requires ids_value { all (followed room.now words.now j) ids.now ≡ true }
    ensures value { result ≡ m + length (joined (list_of room.now words.now j) ids.now) }
    ensures path_after { path.new ≡ puts path.old m (sourced k (joined (list_of room.now words.now j) ids.now)) }
{
    let mut n = m;
    for id in ids {
        let more = list(room, words, j, *id as usize);
        add_sources(path, n, k, more);
        n = n + more.len();
    }
    n
}
