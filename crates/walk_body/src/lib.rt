// Inner: the three walks of a body (model.rs), whatever its office; callers ask `office_walks`. specs/Calls.antt of crate `walk_answers` says which number and which list they give.
// Each fills the front of the caller's list and returns how many ids it put there, and its promise tells of the whole list.
#![tactic(auto)]

ghost use Rattle.std.specs.Prelude.{◌≡◌, length, replicate};
ghost use Rattle.walk_answers.specs.Calls.{in_front, faces_number, faces_handed, edges_number, edges_handed, vertices_number, vertices_handed};

use memory_layout::names::{EDGES, FACES, VERTICES};
use walk_answers::write_walk;
use walk_marks::clear;
use walk_paths::{edge_path, face_path, vertex_path};
use walk_refusals::{edges_refusal, faces_refusal, vertices_refusal};

// The faces of a body: regions, shells, faces in list order, each at its first meeting. `faces` are seen marks, and `code` gets the
// refusal's number, or 0.
pub fn write_faces(
    room: &[usize; 10],
    words: &[u32],
    reals: &[f64],
    body: usize,
    faces: &mut [u8],
    out: &mut [u32],
    code: &mut u32,
) -> usize
    ensures count { result ≡ length (faces_handed room.now words.now reals.now body faces.old out.old) }
    ensures list { out.new ≡ in_front (faces_handed room.now words.now reals.now body faces.old out.old) out.old }
    ensures code { code.new ≡ faces_number room.now words.now reals.now body faces.old out.old }
    ensures faces { faces.new ≡ replicate (length faces.old) 0 }
{
    let enough = room[FACES] <= faces.len();
    clear(faces);
    let refused = faces_refusal(room, words, reals, enough, body);
    *code = refused;
    if refused != 0 {
        return 0;
    }
    let mut path = [0u32; 256];
    let n = face_path(room, words, body, &mut path);
    write_walk(room, words, &path[..n], faces, out, code)
}

// The edges of a body: over its faces their loops' fins, then the wire edges of its shells. `faces` and `edges` are seen marks.
pub fn write_edges(
    room: &[usize; 10],
    words: &[u32],
    reals: &[f64],
    body: usize,
    faces: &mut [u8],
    edges: &mut [u8],
    out: &mut [u32],
    code: &mut u32,
) -> usize
    ensures count { result ≡ length (edges_handed room.now words.now reals.now body faces.old edges.old out.old) }
    ensures list { out.new ≡ in_front (edges_handed room.now words.now reals.now body faces.old edges.old out.old) out.old }
    ensures code { code.new ≡ edges_number room.now words.now reals.now body faces.old edges.old out.old }
    ensures faces { faces.new ≡ replicate (length faces.old) 0 }
    ensures edges { edges.new ≡ replicate (length edges.old) 0 }
{
    let enough = (room[FACES] <= faces.len()) & (room[EDGES] <= edges.len());
    clear(faces);
    clear(edges);
    let refused = edges_refusal(room, words, reals, enough, body, faces);
    *code = refused;
    if refused != 0 {
        return 0;
    }
    let mut path = [0u32; 8448];
    let n = edge_path(room, words, body, faces, &mut path);
    write_walk(room, words, &path[..n], edges, out, code)
}

// The vertices of a body: over its edges start then end, then the acorn vertices of its shells.
pub fn write_vertices(
    room: &[usize; 10],
    words: &[u32],
    reals: &[f64],
    body: usize,
    faces: &mut [u8],
    edges: &mut [u8],
    vertices: &mut [u8],
    out: &mut [u32],
    code: &mut u32,
) -> usize
    ensures count { result ≡ length (vertices_handed room.now words.now reals.now body faces.old edges.old vertices.old out.old) }
    ensures list { out.new ≡ in_front (vertices_handed room.now words.now reals.now body faces.old edges.old vertices.old out.old) out.old }
    ensures code { code.new ≡ vertices_number room.now words.now reals.now body faces.old edges.old vertices.old out.old }
    ensures faces { faces.new ≡ replicate (length faces.old) 0 }
    ensures edges { edges.new ≡ replicate (length edges.old) 0 }
    ensures vertices { vertices.new ≡ replicate (length vertices.old) 0 }
{
    let enough = (room[FACES] <= faces.len())
        & (room[EDGES] <= edges.len())
        & (room[VERTICES] <= vertices.len());
    clear(faces);
    clear(edges);
    clear(vertices);
    let refused = vertices_refusal(room, words, reals, enough, body, faces);
    *code = refused;
    if refused != 0 {
        return 0;
    }
    let mut path = [0u32; 2304];
    let n = vertex_path(room, words, body, faces, edges, &mut path);
    write_walk(room, words, &path[..n], vertices, out, code)
}
