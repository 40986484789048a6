// Inner: which rule of the slab profile (W-212) a body breaks first, and where. Each rule is asked of all its entities; the rules about a face's loop, where it has one.
#![tactic(auto)]

ghost use Rattle.std.specs.Prelude.{◌≡◌, length, replicate};
ghost use Rattle.meaning.specs.Walks.{face_walk, edge_walk, vertex_walk};
ghost use Rattle.meaning_slabs.specs.Slabs.{first_broken, along_axis, grid_vertex, verdict};
ghost use Rattle.memory_layout.specs.Decode.{decode};
ghost use Rattle.memory_layout.specs.Fit.{Fit};
ghost use Rattle.walk_paths.specs.Paths.{Edged};
ghost use Rattle.slab_rules.specs.Judged.{Judged, judged_by, verdict_of};

use slab_edges::{ALONG, GRID, path_tested};
use slab_faces::{ENDS, LEVEL, NORMAL, ONE_LOOP, faces_tested};
use walk_paths::{edge_path, vertex_path};

// The rule, from 1, and the entity that breaks it; rule 0 and entity 0 where none is broken.
#[derive(Clone, Copy)]
pub struct Verdict {
    pub rule: u32,
    pub entity: u64,
}

// Of one rule more, whose number is 0 or the first entity that breaks it and one.
fn judge(v: Verdict, rule: u32, n: u64) -> Verdict
    ensures { result ≡ judged_by v rule n }
{
    if v.rule != 0 {
        return Verdict {
            rule: v.rule,
            entity: v.entity,
        };
    }
    if n == 0 {
        return Verdict {
            rule: 0,
            entity: v.entity,
        };
    }
    Verdict {
        rule,
        entity: n - 1,
    }
}

// The edges by their rule. The marks come all zero and are left so.
fn edges_broken(
    room: &[usize; 10],
    words: &[u32],
    reals: &[f64],
    body: usize,
    faces: &mut [u8],
) -> u64
    requires fit { Fit room.now words.now reals.now }
    requires edged { Edged room.now words.now body }
    requires faces_value { faces.old ≡ replicate (length faces.old) 0 }
    ensures value { result ≡ first_broken (along_axis (decode room.now words.now reals.now)) (edge_walk (decode room.now words.now reals.now) body) }
    ensures faces_after { faces.new ≡ replicate (length faces.old) 0 }
{
    let mut path = [0u32; 8448];
    let n = edge_path(room, words, body, faces, &mut path);
    path_tested(room, words, reals, ALONG, &path[..n])
}

// The vertices by theirs.
fn vertices_broken(
    room: &[usize; 10],
    words: &[u32],
    reals: &[f64],
    body: usize,
    faces: &mut [u8],
    edges: &mut [u8],
) -> u64
    requires fit { Fit room.now words.now reals.now }
    requires edged { Edged room.now words.now body }
    requires faces_value { faces.old ≡ replicate (length faces.old) 0 }
    requires edges_value { edges.old ≡ replicate (length edges.old) 0 }
    ensures value { result ≡ first_broken (grid_vertex (decode room.now words.now reals.now)) (vertex_walk (decode room.now words.now reals.now) body) }
    ensures faces_after { faces.new ≡ replicate (length faces.old) 0 }
    ensures edges_after { edges.new ≡ replicate (length edges.old) 0 }
{
    let mut path = [0u32; 2304];
    let n = vertex_path(room, words, body, faces, edges, &mut path);
    path_tested(room, words, reals, GRID, &path[..n])
}

// The six numbers of the rules, judged in their order.
fn judged(one: u64, two: u64, three: u64, four: u64, five: u64, six: u64) -> Verdict
    ensures { Judged result one two three four five six }
{
    let none = Verdict { rule: 0, entity: 0 };
    let faces = judge(judge(judge(none, NORMAL, one), ONE_LOOP, two), ENDS, three);
    judge(judge(judge(faces, ALONG, four), GRID, five), LEVEL, six)
}

// The first broken rule of a body whose walk of faces is `list`. The marks come all zero and are left so.
pub fn body_verdict(
    room: &[usize; 10],
    words: &[u32],
    reals: &[f64],
    body: usize,
    list: &[u32],
    faces: &mut [u8],
    edges: &mut [u8],
) -> Verdict
    requires fit { Fit room.now words.now reals.now }
    requires edged { Edged room.now words.now body }
    requires list_value { list.now ≡ face_walk (decode room.now words.now reals.now) body }
    requires faces_value { faces.old ≡ replicate (length faces.old) 0 }
    requires edges_value { edges.old ≡ replicate (length edges.old) 0 }
    ensures result_value { verdict_of result ≡ verdict (decode room.now words.now reals.now) body }
    ensures faces_after { faces.new ≡ replicate (length faces.old) 0 }
    ensures edges_after { edges.new ≡ replicate (length edges.old) 0 }
{
    let four = edges_broken(room, words, reals, body, faces);
    let five = vertices_broken(room, words, reals, body, faces, edges);
    judged(
        faces_tested(room, words, reals, NORMAL, list),
        faces_tested(room, words, reals, ONE_LOOP, list),
        faces_tested(room, words, reals, ENDS, list),
        four,
        five,
        faces_tested(room, words, reals, LEVEL, list),
    )
}
