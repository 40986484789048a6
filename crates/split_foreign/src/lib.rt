// Inner: whether an edge is in a walk of the other office's bodies, and what it is for an office (W-206). No walk is made: where the other office has a body at all, one pass
// over the tables, from the fins up, gives each record a status (`specs/Status.antt`), so that the cost is that of reading the tables once, whatever they list.
// `mend_tests`, which makes such a pass too, calls `bit`, `greater` and `list_status`.
#![tactic(auto)]

ghost use Rattle.std.specs.Prelude.{◌≡◌, List, ◌<◌, Float};
ghost use Rattle.meaning.specs.Lists.{member};
ghost use Rattle.meaning.specs.Formed.{bit};
ghost use Rattle.meaning.specs.Offices.{foreign_edge, edge_for};
ghost use Rattle.memory_layout.specs.Names.{BODIES, FINS};
ghost use Rattle.memory_layout.specs.Layout.{word};
ghost use Rattle.memory_layout.specs.Decode.{decode};
ghost use Rattle.memory_layout.specs.Entries.{list_tables};
ghost use Rattle.memory_layout.specs.Fit.{Lists};
ghost use Rattle.split_foreign.specs.Status.{greater, greatest, standing, fin_status, record_status, body_status, others_with};
ghost use Rattle.split_foreign.specs.Facts.{Fresh, Rows};

use memory_layout::layout::words_of;
use memory_layout::names::{
    AT_FIN_EDGE, BODIES, BODY_REGIONS, EDGES, FACE_LOOPS, FINS, LOOP_FINS, REGION_SHELLS,
    SHELL_FACES, SHELL_WIRES,
};
use memory_lists::{list, list_table};
use memory_offices::body_for;

pub fn bit(met: bool) -> u8
    ensures { result ≡ bit met }
{
    if met {
        return 1;
    }
    0
}

pub fn greater(a: u8, b: u8) -> u8
    ensures { result ≡ greater a b }
{
    if a < b {
        return b;
    }
    a
}

// Whether the edge is one of the ids.
fn names(ids: &[u32], edge: usize) -> bool
    ensures { result ≡ member edge ids.now }
{
    let mut found = false;
    for id in ids {
        found = found | (edge == *id as usize);
    }
    found
}

// What an entry leads to: a status, and 2 where it names no record.
fn status_at(below: &[u8], i: usize) -> u8
    ensures { result ≡ standing below.now i }
{
    if i < below.len() {
        return below[i];
    }
    2
}

// The greatest of what the entries lead to.
pub fn list_status(below: &[u8], ids: &[u32]) -> u8
    ensures { result ≡ greatest (standing below.now) ids.now }
{
    let mut s = 0;
    for id in ids {
        s = greater(s, status_at(below, *id as usize));
    }
    s
}

// The status of record i, by its list j and the statuses of the records below.
fn record_status(
    room: &[usize; 10],
    words: &[u32],
    j: usize,
    edge: usize,
    below: &[u8],
    i: usize,
) -> u8
    requires lists { Lists room.now words.now }
    requires j_bound { (j < 8) × (i < word words.now (word list_tables j)) }
    ensures { result ≡ record_status room.now words.now edge j (standing below.now) i }
{
    let s = list_status(below, list(room, words, j, i));
    if j != SHELL_FACES {
        return s;
    }
    let wires = list(room, words, SHELL_WIRES, i);
    greater(s, bit(names(wires, edge)))
}

// The statuses of the fins.
fn mark_fins(room: &[usize; 10], words: &[u32], edge: usize, own: &mut [u8])
    requires lists { Lists room.now words.now }
    requires fresh { Fresh (word words.now FINS) own.old }
    ensures { Rows (word words.now FINS) (fin_status room.now words.now edge) own.new }
{
    let used = words[FINS] as usize;
    for i in 0..used {
        let w = words_of(room, words, FINS, i);
        own[i] = bit(edge == w[AT_FIN_EDGE] as usize);
    }
}

// The statuses of the records that have list j.
fn raise(room: &[usize; 10], words: &[u32], j: usize, edge: usize, below: &[u8], own: &mut [u8])
    requires lists { Lists room.now words.now }
    requires j_bound { j < 8 }
    requires fresh { Fresh (word words.now (word list_tables j)) own.old }
    ensures { Rows (word words.now (word list_tables j)) (record_status room.now words.now edge j (standing below.now)) own.new }
{
    let used = words[list_table(j)] as usize;
    for i in 0..used {
        own[i] = record_status(room, words, j, edge, below, i);
    }
}

// The statuses of the bodies: from the fins up, each table once. A place without a record has 2, which is what an entry leads to that names none.
fn body_statuses(room: &[usize; 10], words: &[u32], edge: usize, bodies: &mut [u8])
    requires lists { Lists room.now words.now }
    requires fresh { Fresh (word words.now BODIES) bodies.old }
    ensures { Rows (word words.now BODIES) (body_status room.now words.now edge) bodies.new }
{
    let mut fins = [2u8; 4096];
    mark_fins(room, words, edge, &mut fins);
    let mut loops = [2u8; 512];
    raise(room, words, LOOP_FINS, edge, &fins, &mut loops);
    let mut faces = [2u8; 512];
    raise(room, words, FACE_LOOPS, edge, &loops, &mut faces);
    let mut shells = [2u8; 128];
    raise(room, words, SHELL_FACES, edge, &faces, &mut shells);
    let mut regions = [2u8; 128];
    raise(room, words, REGION_SHELLS, edge, &shells, &mut regions);
    raise(room, words, BODY_REGIONS, edge, &regions, bodies);
}

// Whether one of the other office's bodies has the status 1.
fn other_with(room: &[usize; 10], words: &[u32], office: u32, statuses: &[u8]) -> bool
    requires { Lists room.now words.now }
    ensures { result ≡ others_with room.now words.now office (standing statuses.now) }
{
    let used = words[BODIES] as usize;
    let mut found = false;
    for i in 0..used {
        let other = body_for(words, office, i) != i;
        found = found | (other & (status_at(statuses, i) == 1));
    }
    found
}

// Whether the edge is in a walk of the other office's bodies.
pub fn foreign_edge(room: &[usize; 10], words: &[u32], office: u32, edge: usize) -> bool
    requires { Lists room.now words.now }
    ensures { (x : List Float) → result ≡ foreign_edge (decode room.now words.now x) office edge }
{
    // with every body counted: where none is the other's, nothing else is looked at
    let all = [1u8; 64];
    if !other_with(room, words, office, &all) {
        return false;
    }
    let mut bodies = [2u8; 64];
    body_statuses(room, words, edge, &mut bodies);
    other_with(room, words, office, &bodies)
}

// What an edge's id is for an office: where it is in a walk of the other's bodies, the id behind the last edge, which names none.
pub fn edge_for(room: &[usize; 10], words: &[u32], office: u32, edge: usize) -> usize
    requires { Lists room.now words.now }
    ensures { (x : List Float) → result ≡ edge_for (decode room.now words.now x) office edge }
{
    if foreign_edge(room, words, office, edge) {
        return words[EDGES] as usize;
    }
    edge
}
