// For callers: `read_stl`, a new body from binary STL (W-210), for the office that asks. `specs/Answers.antt` says what it answers and leaves.
#![tactic(auto)]

ghost use Rattle.std.specs.Prelude.{◌≡◌, ◌+◌, ◌≤◌, ◌<◌, length};
ghost use Rattle.memory_layout.specs.Fit.{Fit};
ghost use Rattle.stl_body.specs.Read.{Mesh, stl_triangles, count_in, mesh_of};
ghost use Rattle.stl_rows.specs.Facts.{Flattened};
ghost use Rattle.stl_reader.specs.Answers.{read_stl_answer, read_stl_words, read_stl_reals};
ghost use Rattle.stl_reader.specs.Facts.{early_number, slots_for, tables_fit, Early, Meshed, Laid};

use edit_core::Inserted;
use memory_layout::names::{BODIES, EDGES, FACES, FINS, LOOPS, REGIONS, SHELLS, VERTICES};
use memory_readable::readable;
use stl_corners::{corners_refusal, length_fits, triangles_in};
use stl_laying::lay;
use stl_numbers::{edges_fit, number_corners, number_edges};

// Why no body is read, as far as no vertex need be numbered for it, else 0.
fn early_refusal(room: &[usize; 10], words: &[u32], reals: &[f64], office: u32, bytes: &[u8]) -> u32
    ensures { result ≡ early_number room.now words.now reals.now office bytes.now }
{
    if !readable(room, words, reals) {
        return 9;
    }
    if !length_fits(bytes) {
        return 9;
    }
    if 1 < office {
        return 1;
    }
    corners_refusal(bytes)
}

// Has table k slots for n records more?
fn slots_for(room: &[usize; 10], words: &[u32], k: usize, n: usize) -> bool
    requires k_bound { k < 10 }
    requires in_bounds { 10 ≤ length words.now }
    requires n_bound { n < 4294967296 }
    ensures { result ≡ slots_for room.now words.now k n }
{
    words[k] as usize + n <= room[k]
}

// Have the tables those that n triangles take, with so many edges and vertices?
fn tables_fit(room: &[usize; 10], words: &[u32], n: usize, edges: usize, vertices: usize) -> bool
    requires in_bounds { 10 ≤ length words.now }
    requires n_bound { (n ≤ 512) × (edges ≤ 1536) × (vertices ≤ 1536) }
    ensures { result ≡ tables_fit room.now words.now n edges vertices }
{
    slots_for(room, words, BODIES, 1)
        & slots_for(room, words, REGIONS, 2)
        & slots_for(room, words, SHELLS, 2)
        & slots_for(room, words, FACES, n)
        & slots_for(room, words, LOOPS, n)
        & slots_for(room, words, FINS, 3 * n)
        & slots_for(room, words, EDGES, edges)
        & slots_for(room, words, VERTICES, vertices)
}

// The body of n triangles, whose v vertices and e edges are numbered, where there is room for it.
fn lay_where_room(
    room: &[usize; 10],
    words: &mut [u32],
    reals: &mut [f64],
    office: u32,
    n: usize,
    numbers: &[u32],
    points: &[f64],
    v: usize,
    edges: &[u32],
    ends: &[u32],
    e: usize,
) -> Inserted
    requires fit { Fit room.now words.old reals.old }
    requires meshed { Meshed n v e numbers.now points.now edges.now ends.now }
    ensures { (t : Mesh) → Flattened t n v e numbers.now points.now edges.now ends.now → Laid room.now office t words.old words.new reals.old reals.new result }
{
    let tables = tables_fit(room, &words[..], n, e, v);
    let lists = edges_fit(edges, 3 * n, e);
    if !(tables & lists) {
        return Inserted::Refused(8);
    }
    let id = words[BODIES];
    lay(
        room, words, reals, office, n, numbers, points, v, edges, ends, e,
    );
    Inserted::At(id)
}

// The body of n triangles. Their vertices and edges are numbered in arrays of its own.
fn read_triangles(
    room: &[usize; 10],
    words: &mut [u32],
    reals: &mut [f64],
    office: u32,
    bytes: &[u8],
    n: usize,
) -> Inserted
    requires early { Early room.now words.old reals.old office bytes.now }
    requires n_value { n ≡ count_in bytes.now }
    requires n_bound { n ≤ 512 }
    ensures { Laid room.now office (mesh_of (stl_triangles bytes.now)) words.old words.new reals.old reals.new result }
{
    let mut numbers = [0; 1536];
    let mut points = [0.0; 4608];
    let mut edges = [0; 1536];
    let mut ends = [0; 3072];
    let v = number_corners(bytes, n, &mut numbers[..], &mut points[..]);
    let e = number_edges(&numbers[..], n, &mut edges[..], &mut ends[..]);
    lay_where_room(
        room,
        words,
        reals,
        office,
        n,
        &numbers[..],
        &points[..],
        v,
        &edges[..],
        &ends[..],
        e,
    )
}

// A new body of the office's, from the bytes of binary STL.
pub fn read_stl(
    room: &[usize; 10],
    words: &mut [u32],
    reals: &mut [f64],
    office: u32,
    bytes: &[u8],
) -> Inserted
    ensures answer { result ≡ read_stl_answer room.now words.old reals.old office bytes.now }
    ensures tables { words.new ≡ read_stl_words room.now words.old reals.old office bytes.now }
    ensures floats { reals.new ≡ read_stl_reals room.now words.old reals.old office bytes.now }
{
    let early = early_refusal(room, &words[..], &reals[..], office, bytes);
    if early != 0 {
        return Inserted::Refused(early);
    }
    let n = triangles_in(bytes);
    if !slots_for(room, &words[..], FACES, n) {
        return Inserted::Refused(8);
    }
    read_triangles(room, words, reals, office, bytes, n)
}
