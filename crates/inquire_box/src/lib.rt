// Inner: `body_bounding_box` of inquire.rs, whatever the body's office; callers ask `office_measures`. specs/Answers.antt says what it answers. Besides, `bounding_box`, and the module `extent`, the box of
// what a path lists.
#![tactic(auto)]

pub mod extent;

ghost use Rattle.std.specs.Prelude.{◌≡◌, length, replicate};
ghost use Rattle.meaning.specs.Walks.{vertex_walk};
ghost use Rattle.memory_layout.specs.Decode.{decode};
ghost use Rattle.memory_layout.specs.Fit.{Fit};
ghost use Rattle.walk_paths.specs.Paths.{Edged};
ghost use Rattle.inquire_box.specs.Answers.{box_answer};
ghost use Rattle.inquire_box.specs.Walked.{walk_box};

use crate::extent::path_box;
use inquire_polyhedral::polyhedral_refusal;
use memory_layout::names::{EDGES, FACES, VERTICES};
use station_answers::BoxFound;
use walk_marks::clear;
use walk_paths::vertex_path;

// The box of a body whose walks are not refused. All marks come zero and are left so.
fn bounding_box(
    room: &[usize; 10],
    words: &[u32],
    reals: &[f64],
    body: usize,
    faces: &mut [u8],
    edges: &mut [u8],
    vertices: &mut [u8],
) -> BoxFound
    requires fit { Fit room.now words.now reals.now }
    requires edged { Edged room.now words.now body }
    requires faces_value { faces.old ≡ replicate (length faces.old) 0 }
    requires edges_value { edges.old ≡ replicate (length edges.old) 0 }
    requires vertices_value { vertices.old ≡ replicate (length vertices.old) 0 }
    ensures value { result ≡ walk_box (decode room.now words.now reals.now) (vertex_walk (decode room.now words.now reals.now) body) }
    ensures faces_after { faces.new ≡ replicate (length faces.old) 0 }
    ensures edges_after { edges.new ≡ replicate (length edges.old) 0 }
    ensures vertices_after { vertices.new ≡ replicate (length vertices.old) 0 }
{
    let mut path = [0u32; 2304];
    let n = vertex_path(room, words, body, faces, edges, &mut path);
    path_box(room, words, reals, &path[..n], vertices)
}

// The box of a body's vertices. `faces`, `edges` and `vertices` are seen marks.
pub fn body_bounding_box(
    room: &[usize; 10],
    words: &[u32],
    reals: &[f64],
    body: usize,
    faces: &mut [u8],
    edges: &mut [u8],
    vertices: &mut [u8],
) -> BoxFound
    ensures answer { result ≡ box_answer room.now words.now reals.now body faces.old edges.old vertices.old }
    ensures faces { faces.new ≡ replicate (length faces.old) 0 }
    ensures edges { edges.new ≡ replicate (length edges.old) 0 }
    ensures vertices { vertices.new ≡ replicate (length vertices.old) 0 }
{
    let enough = (room[FACES] <= faces.len())
        & (room[EDGES] <= edges.len())
        & (room[VERTICES] <= vertices.len());
    clear(faces);
    clear(edges);
    clear(vertices);
    let n = polyhedral_refusal(room, words, reals, enough, body);
    if n != 0 {
        return BoxFound::Refused(n);
    }
    bounding_box(room, words, reals, body, faces, edges, vertices)
}
