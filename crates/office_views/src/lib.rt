// For callers: the walks in their second form, the part of the caller's list that `write_faces` and its like have filled, as a view.
#![tactic(auto)]

ghost use Rattle.std.specs.Prelude.{◌≡◌, length, replicate};
ghost use Rattle.office_walks.specs.Calls.{office_faces_number, office_faces_handed, office_edges_number, office_edges_handed, office_vertices_number, office_vertices_handed};

use office_walks::{write_edges, write_faces, write_vertices};

pub fn body_faces<'a>(
    room: &[usize; 10],
    words: &[u32],
    reals: &[f64],
    office: u32,
    body: usize,
    faces: &mut [u8],
    out: &'a mut [u32],
    code: &mut u32,
) -> &'a mut [u32]
    ensures answer { result.now ≡ office_faces_handed room.now words.now reals.now office body faces.old out.old }
    ensures code { code.new ≡ office_faces_number room.now words.now reals.now office body faces.old out.old }
    ensures faces { faces.new ≡ replicate (length faces.old) 0 }
{
    let n = write_faces(room, words, reals, office, body, faces, out, code);
    &mut out[..n]
}

pub fn body_edges<'a>(
    room: &[usize; 10],
    words: &[u32],
    reals: &[f64],
    office: u32,
    body: usize,
    faces: &mut [u8],
    edges: &mut [u8],
    out: &'a mut [u32],
    code: &mut u32,
) -> &'a mut [u32]
    ensures answer { result.now ≡ office_edges_handed room.now words.now reals.now office body faces.old edges.old out.old }
    ensures code { code.new ≡ office_edges_number room.now words.now reals.now office body faces.old edges.old out.old }
    ensures faces { faces.new ≡ replicate (length faces.old) 0 }
    ensures edges { edges.new ≡ replicate (length edges.old) 0 }
{
    let n = write_edges(room, words, reals, office, body, faces, edges, out, code);
    &mut out[..n]
}

pub fn body_vertices<'a>(
    room: &[usize; 10],
    words: &[u32],
    reals: &[f64],
    office: u32,
    body: usize,
    faces: &mut [u8],
    edges: &mut [u8],
    vertices: &mut [u8],
    out: &'a mut [u32],
    code: &mut u32,
) -> &'a mut [u32]
    ensures answer { result.now ≡ office_vertices_handed room.now words.now reals.now office body faces.old edges.old vertices.old out.old }
    ensures code { code.new ≡ office_vertices_number room.now words.now reals.now office body faces.old edges.old vertices.old out.old }
    ensures faces { faces.new ≡ replicate (length faces.old) 0 }
    ensures edges { edges.new ≡ replicate (length edges.old) 0 }
    ensures vertices { vertices.new ≡ replicate (length vertices.old) 0 }
{
    let n = write_vertices(
        room, words, reals, office, body, faces, edges, vertices, out, code,
    );
    &mut out[..n]
}
