// What there is of the trial stone, by the calls.
use memory_lookups::{EdgeFound, edge};
use office_measures::check_body;
use office_views::{body_edges, body_faces, body_vertices};
use station_answers::Checked;
use trial_inserts::{OFFICE, ROOM};

// A refused call counts as more than the stone has of anything.
const REFUSED: u64 = 1000;

fn counted(n: usize, code: u32) -> u64 {
    if code != 0 {
        return REFUSED + code as u64;
    }
    n as u64
}

// How many faces, edges, vertices the walks of the body hand back.
pub fn faces(words: &[u32], reals: &[f64]) -> u64 {
    let mut marks = [0u8; 6];
    let mut out = [0u32; 6];
    let mut code = 0;
    let part = body_faces(
        &ROOM, words, reals, OFFICE, 0, &mut marks, &mut out, &mut code,
    );
    counted(part.len(), code)
}

pub fn edges(words: &[u32], reals: &[f64]) -> u64 {
    let mut marks = [0u8; 6];
    let mut seen = [0u8; 13];
    let mut out = [0u32; 13];
    let mut code = 0;
    let part = body_edges(
        &ROOM, words, reals, OFFICE, 0, &mut marks, &mut seen, &mut out, &mut code,
    );
    counted(part.len(), code)
}

pub fn vertices(words: &[u32], reals: &[f64]) -> u64 {
    let mut marks = [0u8; 6];
    let mut seen = [0u8; 13];
    let mut met = [0u8; 9];
    let mut out = [0u32; 9];
    let mut code = 0;
    let part = body_vertices(
        &ROOM, words, reals, OFFICE, 0, &mut marks, &mut seen, &mut met, &mut out, &mut code,
    );
    counted(part.len(), code)
}

// How many fins an edge has; a record that is not there has none.
fn fins_of(words: &[u32], reals: &[f64], id: usize) -> u64 {
    match edge(&ROOM, words, reals, id) {
        EdgeFound::Is(found) => found.fins as u64,
        EdgeFound::Refused(_) => 0,
    }
}

// How many fins its edges have.
pub fn fins(words: &[u32], reals: &[f64]) -> u64 {
    let mut n = 0;
    for id in 0..13 {
        n = std::num::wrapping_add_u64(n, fins_of(words, reals, id));
    }
    n
}

// How many faults it has with geometry off.
pub fn faults(words: &[u32], reals: &[f64]) -> u64 {
    let mut marks = [0u8; 6];
    let mut seen = [0u8; 13];
    let mut list = [0u32; 4];
    match check_body(
        &ROOM, words, reals, OFFICE, 0, false, 0, &mut marks, &mut seen, &mut list,
    ) {
        Checked::Is(counts) => counts.faults as u64,
        Checked::Refused(n) => REFUSED + n as u64,
    }
}
