// Inner: the paths of a body's walks, and whether what they follow is there (`body_faces`, `body_edges`, `body_vertices` of model.rs). The
// faces walk goes by the body's shells; the edges walk by the loops of those faces, then by the shells; the vertices walk by those
// edges, then by the shells. What a walk follows exists, so it has room in a list as long as its largest table.
#![tactic(auto)]

ghost use Rattle.std.specs.Prelude.{◌≡◌, true, [], ◌+◌, ◌<◌, ◌≤◌, ltb, length, replicate};
ghost use Rattle.meaning.specs.Lists.{all, joined};
ghost use Rattle.memory_layout.specs.Names.{FACES, FACE_LOOPS, LOOP_FINS};
ghost use Rattle.memory_layout.specs.Layout.{word};
ghost use Rattle.memory_layout.specs.Entries.{list_of};
ghost use Rattle.memory_layout.specs.Fit.{Lists};
ghost use Rattle.walk_marks.specs.Marks.{Marked, puts};
ghost use Rattle.walk_sources.specs.Sources.{followed, sourced};
ghost use Rattle.walk_visits.specs.Visits.{ids_of, Visited};
ghost use Rattle.walk_paths.specs.Paths.{shell_list, face_path, edge_path, vertex_path, body_followed, faces_there, loops_followed, edges_there, Shelled, Faced, Looped, Edged, Laid};

use memory_layout::names::{
    BODIES, BODY_REGIONS, EDGES, FACE_LOOPS, FACES, LOOP_FINS, REGION_SHELLS,
};
use memory_lists::list;
use walk_marks::clear;
use walk_sources::{add_sources, all_followed, gather};
use walk_visits::{all_listed, visit};

// Do the body, its regions and their shells exist?
pub fn body_followed(room: &[usize; 10], words: &[u32], body: usize) -> bool
    requires { Lists room.now words.now }
    ensures { result ≡ body_followed room.now words.now body }
{
    if words[BODIES] as usize <= body {
        return false;
    }
    all_followed(
        room,
        words,
        REGION_SHELLS,
        list(room, words, BODY_REGIONS, body),
    )
}

// Puts the body's shells into the path from place m on, as sources of list k, and returns the next place.
pub fn shells(
    room: &[usize; 10],
    words: &[u32],
    body: usize,
    k: u32,
    path: &mut [u32],
    m: usize,
) -> usize
    requires lists { Lists room.now words.now }
    requires shelled { Shelled room.now words.now body }
    requires k_bound { (k < 8) × (m ≤ 8192) }
    ensures value { result ≡ m + length (shell_list room.now words.now body) }
    ensures path_after { path.new ≡ puts path.old m (sourced k (shell_list room.now words.now body)) }
{
    gather(
        room,
        words,
        REGION_SHELLS,
        list(room, words, BODY_REGIONS, body),
        k,
        path,
        m,
    )
}

// The path of the faces walk: returns its length.
pub fn face_path(room: &[usize; 10], words: &[u32], body: usize, path: &mut [u32]) -> usize
    requires lists { Lists room.now words.now }
    requires shelled { Shelled room.now words.now body }
    ensures { Laid (face_path room.now words.now body) path.old path.new result }
{
    shells(room, words, body, 2, path, 0)
}

// Do all faces exist that the body's shells list?
pub fn faces_there(room: &[usize; 10], words: &[u32], body: usize) -> bool
    requires lists { Lists room.now words.now }
    requires shelled { Shelled room.now words.now body }
    ensures { result ≡ faces_there room.now words.now body }
{
    let mut path = [0u32; 256];
    let n = face_path(room, words, body, &mut path);
    all_listed(room, words, &path[..n], words[FACES])
}

// The faces of a body, as many of the first as the list takes. The marks come all zero and are left so.
pub fn faces(
    room: &[usize; 10],
    words: &[u32],
    body: usize,
    marks: &mut [u8],
    out: &mut [u32],
) -> usize
    requires lists { Lists room.now words.now }
    requires shelled { Shelled room.now words.now body }
    requires marked { Marked marks.old [] }
    ensures visited { Visited (ids_of room.now words.now (face_path room.now words.now body)) out.old out.new result }
    ensures marks_after { marks.new ≡ replicate (length marks.old) 0 }
{
    let mut path = [0u32; 256];
    let n = face_path(room, words, body, &mut path);
    let m = visit(room, words, &path[..n], marks, out);
    clear(marks);
    m
}

// Do the loops of the faces, and their fins, exist?
fn all_loops_followed(room: &[usize; 10], words: &[u32], faces: &[u32]) -> bool
    requires lists { Lists room.now words.now }
    requires faces_value { all (λ f. ltb f (word words.now FACES)) faces.now ≡ true }
    ensures { result ≡ all (followed room.now words.now LOOP_FINS) (joined (list_of room.now words.now FACE_LOOPS) faces.now) }
{
    let mut ok = true;
    for face in faces {
        ok = ok
            & all_followed(
                room,
                words,
                LOOP_FINS,
                list(room, words, FACE_LOOPS, *face as usize),
            );
    }
    ok
}

// Do the loops of the body's faces, and their fins, exist?
pub fn loops_followed(room: &[usize; 10], words: &[u32], body: usize, marks: &mut [u8]) -> bool
    requires lists { Lists room.now words.now }
    requires faced { Faced room.now words.now body }
    requires marked { Marked marks.old [] }
    ensures value { result ≡ loops_followed room.now words.now body }
    ensures marks_after { marks.new ≡ replicate (length marks.old) 0 }
{
    let mut list = [0u32; 512];
    let n = faces(room, words, body, marks, &mut list);
    all_loops_followed(room, words, &list[..n])
}

// The path of the edges walk: returns its length.
pub fn edge_path(
    room: &[usize; 10],
    words: &[u32],
    body: usize,
    marks: &mut [u8],
    path: &mut [u32],
) -> usize
    requires lists { Lists room.now words.now }
    requires looped { Looped room.now words.now body }
    requires marked { Marked marks.old [] }
    ensures laid { Laid (edge_path room.now words.now body) path.old path.new result }
    ensures marks_after { marks.new ≡ replicate (length marks.old) 0 }
{
    let mut list = [0u32; 512];
    let n = faces(room, words, body, marks, &mut list);
    let m = gather(room, words, FACE_LOOPS, &list[..n], 6, path, 0);
    shells(room, words, body, 3, path, m)
}

// Do all edges exist that the body's fins and shells name?
pub fn edges_there(room: &[usize; 10], words: &[u32], body: usize, marks: &mut [u8]) -> bool
    requires lists { Lists room.now words.now }
    requires looped { Looped room.now words.now body }
    requires marked { Marked marks.old [] }
    ensures value { result ≡ edges_there room.now words.now body }
    ensures marks_after { marks.new ≡ replicate (length marks.old) 0 }
{
    let mut path = [0u32; 8448];
    let n = edge_path(room, words, body, marks, &mut path);
    all_listed(room, words, &path[..n], words[EDGES])
}

// The edges of a body, as many of the first as the list takes. The marks come all zero and are left so.
pub fn edges(
    room: &[usize; 10],
    words: &[u32],
    body: usize,
    face_marks: &mut [u8],
    edge_marks: &mut [u8],
    out: &mut [u32],
) -> usize
    requires lists { Lists room.now words.now }
    requires looped { Looped room.now words.now body }
    requires marked { Marked face_marks.old [] }
    requires marked_2 { Marked edge_marks.old [] }
    ensures visited { Visited (ids_of room.now words.now (edge_path room.now words.now body)) out.old out.new result }
    ensures face_marks_after { face_marks.new ≡ replicate (length face_marks.old) 0 }
    ensures edge_marks_after { edge_marks.new ≡ replicate (length edge_marks.old) 0 }
{
    let mut path = [0u32; 8448];
    let n = edge_path(room, words, body, face_marks, &mut path);
    let m = visit(room, words, &path[..n], edge_marks, out);
    clear(edge_marks);
    m
}

// The path of the vertices walk: returns its length.
pub fn vertex_path(
    room: &[usize; 10],
    words: &[u32],
    body: usize,
    face_marks: &mut [u8],
    edge_marks: &mut [u8],
    path: &mut [u32],
) -> usize
    requires lists { Lists room.now words.now }
    requires edged { Edged room.now words.now body }
    requires marked { Marked face_marks.old [] }
    requires marked_2 { Marked edge_marks.old [] }
    ensures laid { Laid (vertex_path room.now words.now body) path.old path.new result }
    ensures face_marks_after { face_marks.new ≡ replicate (length face_marks.old) 0 }
    ensures edge_marks_after { edge_marks.new ≡ replicate (length edge_marks.old) 0 }
{
    let mut list = [0u32; 2048];
    let n = edges(room, words, body, face_marks, edge_marks, &mut list);
    add_sources(path, 0, 7, &list[..n]);
    shells(room, words, body, 4, path, n)
}
