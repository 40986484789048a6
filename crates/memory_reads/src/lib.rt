// Inner: record i of each table, read off the lent memory. `records` makes it of its own words and floats.
#![tactic(auto)]

pub mod carriers;
pub mod records;

ghost use Rattle.std.specs.Prelude.{◌≡◌, ◌<◌, List, Float};
ghost use Rattle.meaning.specs.Model.{body, region, shell, face, loop, fin, edge, vertex, carrier_at};
ghost use Rattle.memory_layout.specs.Names.{BODIES, REGIONS, SHELLS, FACES, LOOPS, FINS, EDGES, VERTICES};
ghost use Rattle.memory_layout.specs.Layout.{word};
ghost use Rattle.memory_layout.specs.Decode.{table, carrier_of, decode};
ghost use Rattle.memory_layout.specs.Fit.{Sized, Fit, Lists};
ghost use Rattle.memory_records.specs.Seen.{seen_body, seen_region, seen_shell, seen_face, seen_loop, seen_fin, seen_edge, seen_vertex};

use crate::records::{body_of, edge_of, face_of, fin_of, loop_of, region_of, shell_of, vertex_of};
use geom_carriers::Carrier;
use memory_layout::layout::{reals_of, words_of};
use memory_layout::names::{BODIES, EDGES, FACES, FINS, LOOPS, REGIONS, SHELLS, VERTICES};
use memory_records::records::{Body, Edge, Face, Fin, Loop, Region, Shell, Vertex, carrier_of};

// The first six tables have no floats: the promise holds whatever the floats are.
pub fn body_at(room: &[usize; 10], words: &[u32], i: usize) -> Body
    requires lists { Lists room.now words.now }
    requires i_bound { i < word words.now BODIES }
    ensures { (x : List Float) → result ≡ seen_body (body (decode room.now words.now x) i) }
{
    body_of(words_of(room, words, BODIES, i))
}

pub fn region_at(room: &[usize; 10], words: &[u32], i: usize) -> Region
    requires lists { Lists room.now words.now }
    requires i_bound { i < word words.now REGIONS }
    ensures { (x : List Float) → result ≡ seen_region (region (decode room.now words.now x) i) }
{
    region_of(words_of(room, words, REGIONS, i))
}

pub fn shell_at(room: &[usize; 10], words: &[u32], i: usize) -> Shell
    requires lists { Lists room.now words.now }
    requires i_bound { i < word words.now SHELLS }
    ensures { (x : List Float) → result ≡ seen_shell (shell (decode room.now words.now x) i) }
{
    shell_of(words_of(room, words, SHELLS, i))
}

pub fn face_at(room: &[usize; 10], words: &[u32], i: usize) -> Face
    requires lists { Lists room.now words.now }
    requires i_bound { i < word words.now FACES }
    ensures { (x : List Float) → result ≡ seen_face (face (decode room.now words.now x) i) }
{
    face_of(words_of(room, words, FACES, i))
}

pub fn loop_at(room: &[usize; 10], words: &[u32], i: usize) -> Loop
    requires lists { Lists room.now words.now }
    requires i_bound { i < word words.now LOOPS }
    ensures { (x : List Float) → result ≡ seen_loop (loop (decode room.now words.now x) i) }
{
    loop_of(words_of(room, words, LOOPS, i))
}

pub fn fin_at(room: &[usize; 10], words: &[u32], i: usize) -> Fin
    requires lists { Lists room.now words.now }
    requires i_bound { i < word words.now FINS }
    ensures { (x : List Float) → result ≡ seen_fin (fin (decode room.now words.now x) i) }
{
    fin_of(words_of(room, words, FINS, i))
}

pub fn edge_at(room: &[usize; 10], words: &[u32], reals: &[f64], i: usize) -> Edge
    requires fit { Fit room.now words.now reals.now }
    requires i_bound { i < word words.now EDGES }
    ensures { result ≡ seen_edge (edge (decode room.now words.now reals.now) i) }
{
    edge_of(
        words_of(room, words, EDGES, i),
        reals_of(room, reals, EDGES, i),
    )
}

pub fn vertex_at(room: &[usize; 10], words: &[u32], reals: &[f64], i: usize) -> Vertex
    requires sized { Sized room.now words.now reals.now }
    requires i_bound { i < word words.now VERTICES }
    ensures { result ≡ seen_vertex (vertex (decode room.now words.now reals.now) i) }
{
    vertex_of(
        words_of(room, words, VERTICES, i),
        reals_of(room, reals, VERTICES, i),
    )
}

// Record i of table k, the curves or the surfaces.
pub fn carrier_at(room: &[usize; 10], words: &[u32], reals: &[f64], k: usize, i: usize) -> Carrier
    requires sized { Sized room.now words.now reals.now }
    requires lt_k { (7 < k) × (k < 10) }
    requires i_bound { i < word words.now k }
    ensures { result ≡ (table room.now words.now reals.now k carrier_of).slot i }
{
    carrier_of(words_of(room, words, k, i), reals_of(room, reals, k, i))
}

// What table k has under an id, which the queries of `geom_carriers` are asked about.
pub fn found(
    room: &[usize; 10],
    words: &[u32],
    reals: &[f64],
    k: usize,
    id: usize,
) -> Option<Carrier>
    requires sized { Sized room.now words.now reals.now }
    requires lt_k { (7 < k) × (k < 10) }
    ensures { result ≡ carrier_at (table room.now words.now reals.now k carrier_of) id }
{
    if words[k] as usize <= id {
        return None;
    }
    Some(carrier_at(room, words, reals, k, id))
}
