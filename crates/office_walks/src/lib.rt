// For callers: the three walks of a body, by the office that asks (W-206): 9, 1 for an office above 1, then as `walk_body` answers of the body that the id is for that office.
// specs/Calls.antt says which number and which list they give. Each has two forms: `write_..` fills the front of the caller's list and returns how many ids it put there, and its
// promise tells of the whole list; the form without `write` (crate `office_views`) returns that front part.
#![tactic(auto)]

ghost use Rattle.std.specs.Prelude.{◌≡◌, length, replicate};
ghost use Rattle.walk_answers.specs.Calls.{in_front};
ghost use Rattle.office_walks.specs.Calls.{office_faces_number, office_faces_handed, office_edges_number, office_edges_handed, office_vertices_number, office_vertices_handed};

use memory_offices::body_for;
use memory_readable::unknown_tag;
use walk_marks::clear;

// The faces of a body, as an office sees it. `faces` are seen marks, and `code` gets the refusal's number, or 0.
pub fn write_faces(
    room: &[usize; 10],
    words: &[u32],
    reals: &[f64],
    office: u32,
    body: usize,
    faces: &mut [u8],
    out: &mut [u32],
    code: &mut u32,
) -> usize
    ensures count { result ≡ length (office_faces_handed room.now words.now reals.now office body faces.old out.old) }
    ensures list { out.new ≡ in_front (office_faces_handed room.now words.now reals.now office body faces.old out.old) out.old }
    ensures code { code.new ≡ office_faces_number room.now words.now reals.now office body faces.old out.old }
    ensures faces { faces.new ≡ replicate (length faces.old) 0 }
{
    if 1 < office {
        clear(faces);
        *code = unknown_tag(room, words, reals);
        return 0;
    }
    let seen = body_for(words, office, body);
    walk_body::write_faces(room, words, reals, seen, faces, out, code)
}

// The edges of a body. `faces` and `edges` are seen marks.
pub fn write_edges(
    room: &[usize; 10],
    words: &[u32],
    reals: &[f64],
    office: u32,
    body: usize,
    faces: &mut [u8],
    edges: &mut [u8],
    out: &mut [u32],
    code: &mut u32,
) -> usize
    ensures count { result ≡ length (office_edges_handed room.now words.now reals.now office body faces.old edges.old out.old) }
    ensures list { out.new ≡ in_front (office_edges_handed room.now words.now reals.now office body faces.old edges.old out.old) out.old }
    ensures code { code.new ≡ office_edges_number room.now words.now reals.now office body faces.old edges.old out.old }
    ensures faces { faces.new ≡ replicate (length faces.old) 0 }
    ensures edges { edges.new ≡ replicate (length edges.old) 0 }
{
    if 1 < office {
        clear(faces);
        clear(edges);
        *code = unknown_tag(room, words, reals);
        return 0;
    }
    let seen = body_for(words, office, body);
    walk_body::write_edges(room, words, reals, seen, faces, edges, out, code)
}

// The vertices of a body.
pub fn write_vertices(
    room: &[usize; 10],
    words: &[u32],
    reals: &[f64],
    office: u32,
    body: usize,
    faces: &mut [u8],
    edges: &mut [u8],
    vertices: &mut [u8],
    out: &mut [u32],
    code: &mut u32,
) -> usize
    ensures count { result ≡ length (office_vertices_handed room.now words.now reals.now office body faces.old edges.old vertices.old out.old) }
    ensures list { out.new ≡ in_front (office_vertices_handed room.now words.now reals.now office body faces.old edges.old vertices.old out.old) out.old }
    ensures code { code.new ≡ office_vertices_number room.now words.now reals.now office body faces.old edges.old vertices.old out.old }
    ensures faces { faces.new ≡ replicate (length faces.old) 0 }
    ensures edges { edges.new ≡ replicate (length edges.old) 0 }
    ensures vertices { vertices.new ≡ replicate (length vertices.old) 0 }
{
    if 1 < office {
        clear(faces);
        clear(edges);
        clear(vertices);
        *code = unknown_tag(room, words, reals);
        return 0;
    }
    let seen = body_for(words, office, body);
    walk_body::write_vertices(room, words, reals, seen, faces, edges, vertices, out, code)
}
