// Each question of the list, and whether our answer is the row's.
use crate::rows::{Row, least, sum};
use office_measures::{body_bounding_box, body_volume, check_body};
use office_walks::{write_edges, write_faces, write_vertices};
use replay_digits::same;
use split_bounds::{Bounds, edge_parameter_bounds};
use split_edge::split_line_edge;
use station_answers::{BoxFound, Checked, Split, Volume};
use walk_fin_ends::{FinVertices, fin_vertices};

// Demand 2 compares models of one office, asked by that office (W-206).
const OFFICE: u32 = 0;

// A walk: its number, how many ids, and their sum.
fn walk_faces(room: &[usize; 10], words: &[u32], reals: &[f64], out: &mut [u32], w: Row) -> bool {
    let mut faces = [1u8; 24];
    let mut code = 0;
    let n = write_faces(
        room,
        words,
        reals,
        OFFICE,
        w.b as usize,
        &mut faces,
        out,
        &mut code,
    );
    (code == w.c) & (n == w.d as usize) & (sum(&out[..], n) == w.e as u64)
}

fn walk_edges(room: &[usize; 10], words: &[u32], reals: &[f64], out: &mut [u32], w: Row) -> bool {
    let mut faces = [1u8; 24];
    let mut edges = [1u8; 64];
    let mut code = 0;
    let n = write_edges(
        room,
        words,
        reals,
        OFFICE,
        w.b as usize,
        &mut faces,
        &mut edges,
        out,
        &mut code,
    );
    (code == w.c) & (n == w.d as usize) & (sum(&out[..], n) == w.e as u64)
}

fn walk_vertices(
    room: &[usize; 10],
    words: &[u32],
    reals: &[f64],
    out: &mut [u32],
    w: Row,
) -> bool {
    let mut faces = [1u8; 24];
    let mut edges = [1u8; 64];
    let mut vertices = [1u8; 64];
    let mut code = 0;
    let n = write_vertices(
        room,
        words,
        reals,
        OFFICE,
        w.b as usize,
        &mut faces,
        &mut edges,
        &mut vertices,
        out,
        &mut code,
    );
    (code == w.c) & (n == w.d as usize) & (sum(&out[..], n) == w.e as u64)
}

// Walk 0 of faces, 1 of edges, else of vertices, of a body.
pub fn walk(room: &[usize; 10], words: &[u32], reals: &[f64], w: Row) -> bool {
    let mut out = [0u32; 256];
    if w.a == 0 {
        return walk_faces(room, words, reals, &mut out, w);
    }
    if w.a == 1 {
        return walk_edges(room, words, reals, &mut out, w);
    }
    walk_vertices(room, words, reals, &mut out, w)
}

// An optional id as a number: 0, or the id and one.
fn optional(id: Option<u32>) -> u64 {
    match id {
        None => 0,
        Some(i) => i as u64 + 1,
    }
}

// The fin; the number, its two ends.
pub fn ends(room: &[usize; 10], words: &[u32], reals: &[f64], w: Row) -> bool {
    match fin_vertices(room, words, reals, w.a as usize) {
        FinVertices::Refused(n) => n == w.b,
        FinVertices::Is(tips) => {
            let start = tips.start;
            let end = tips.end;
            (w.b == 0) & (optional(start) == w.c as u64) & (optional(end) == w.d as u64)
        }
    }
}

// The edge; the number. The parameters are the first two floats.
pub fn parameters(room: &[usize; 10], words: &[u32], reals: &[f64], w: Row, x: &[f64; 6]) -> bool {
    match edge_parameter_bounds(room, words, reals, w.a as usize) {
        Bounds::Refused(n) => n == w.b,
        Bounds::Is(range) => (w.b == 0) & same(range.lo, x[0]) & same(range.hi, x[1]),
    }
}

// The body; the number. The corners are the six floats.
pub fn corners(room: &[usize; 10], words: &[u32], reals: &[f64], w: Row, x: &[f64; 6]) -> bool {
    let mut faces = [1u8; 24];
    let mut edges = [1u8; 64];
    let mut vertices = [1u8; 64];
    let body = w.a as usize;
    match body_bounding_box(
        room,
        words,
        reals,
        OFFICE,
        body,
        &mut faces,
        &mut edges,
        &mut vertices,
    ) {
        BoxFound::Refused(n) => n == w.b,
        BoxFound::Is(found) => {
            let least = same(found.min.x, x[0]) & same(found.min.y, x[1]) & same(found.min.z, x[2]);
            let most = same(found.max.x, x[3]) & same(found.max.y, x[4]) & same(found.max.z, x[5]);
            (w.b == 0) & least & most
        }
    }
}

// The body; the number. The volume is the first float.
pub fn volume(room: &[usize; 10], words: &[u32], reals: &[f64], w: Row, x: f64) -> bool {
    let mut faces = [1u8; 24];
    match body_volume(room, words, reals, OFFICE, w.a as usize, &mut faces) {
        Volume::Refused(n) => n == w.b,
        Volume::Is(v) => (w.b == 0) & same(v, x),
    }
}

// The body, 1 with geometry, samples; the number, how many faults, `unchecked`, and the sum of the first sixteen faults' words.
fn told(answer: Checked, list: &[u32], w: Row) -> bool {
    match answer {
        Checked::Refused(n) => n == w.d,
        Checked::Is(counts) => {
            let faults = counts.faults;
            let unchecked = counts.unchecked;
            (w.d == 0)
                & (faults == w.e as usize)
                & (unchecked == w.f as usize)
                & (sum(list, least(faults, 16) * 4) == w.g as u64)
        }
    }
}

fn report_in(room: &[usize; 10], words: &[u32], reals: &[f64], list: &mut [u32], w: Row) -> bool {
    let mut faces = [1u8; 24];
    let mut edges = [1u8; 64];
    let answer = check_body(
        room,
        words,
        reals,
        OFFICE,
        w.a as usize,
        w.b != 0,
        w.c as usize,
        &mut faces,
        &mut edges,
        list,
    );
    told(answer, &list[..], w)
}

pub fn report(room: &[usize; 10], words: &[u32], reals: &[f64], w: Row) -> bool {
    let mut list = [0u32; 64];
    report_in(room, words, reals, &mut list, w)
}

// The edge; the number, the new edge, the new vertex. The fraction is the first float.
pub fn split(
    room: &[usize; 10],
    words: &mut [u32],
    reals: &mut [f64],
    w: Row,
    fraction: f64,
) -> bool {
    match split_line_edge(room, words, reals, OFFICE, w.a as usize, fraction) {
        Split::Refused(n) => n == w.b,
        Split::Is(made) => (w.b == 0) & (made.new_edge == w.c) & (made.vertex == w.d),
    }
}
