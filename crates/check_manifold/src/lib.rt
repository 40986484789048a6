// Inner: the manifold edges of a solid (`manifold_edge` of gensolid-check's lib.rs), over the walk of a body's edges. The walk may list ids that no
// table has room for, so it is not put into a list: each source's new edges are tested before the next source is read.
#![tactic(auto)]

ghost use Rattle.std.specs.Prelude.{◌≡◌, List, [], ◌≤◌, ◌<◌, Float, length, take, replicate};
ghost use Rattle.meaning.specs.Lists.{joined, firsts};
ghost use Rattle.meaning.specs.Walks.{edge_walk};
ghost use Rattle.meaning.specs.Faults.{manifold, manifold_edge};
ghost use Rattle.memory_layout.specs.Layout.{word};
ghost use Rattle.memory_layout.specs.Decode.{decode};
ghost use Rattle.memory_layout.specs.Fit.{Lists, Fit};
ghost use Rattle.walk_marks.specs.Marks.{Marked};
ghost use Rattle.walk_sources.specs.Sources.{part_of, Sources};
ghost use Rattle.walk_visits.specs.Visits.{ids_of, Fresh};
ghost use Rattle.walk_paths.specs.Paths.{Looped};
ghost use Rattle.check_reasons.specs.Log.{Noted, Enough};
ghost use Rattle.check_manifold.specs.Manifold.{alike, both_alike};

use check_reasons::{EDGE, Tally, done, note, note_if};
use memory_layout::names::{EDGE_FINS, EDGES, FINS};
use memory_lists::list;
use memory_reads::fin_at;
use memory_records::records::Sense;
use walk_marks::clear;
use walk_paths::edge_path;
use walk_sources::part;
use walk_visits::fresh;

fn same_sense(a: Sense, b: Sense) -> bool
    ensures { result ≡ alike a b }
{
    match a {
        Sense::Positive => match b {
            Sense::Positive => true,
            Sense::Negative => false,
        },
        Sense::Negative => match b {
            Sense::Positive => false,
            Sense::Negative => true,
        },
    }
}

// Do both fins exist, and run in the same direction?
fn same_senses(room: &[usize; 10], words: &[u32], i: u32, j: u32) -> bool
    requires { Lists room.now words.now }
    ensures { (x : List Float) → result ≡ both_alike (decode room.now words.now x) i j }
{
    if words[FINS] <= i {
        return false;
    }
    if words[FINS] <= j {
        return false;
    }
    let one = fin_at(room, words, i as usize);
    let two = fin_at(room, words, j as usize);
    let a = one.sense;
    let b = two.sense;
    same_sense(a, b)
}

// The fins of the edge e: not two, or of equal senses.
fn manifold_fins(
    room: &[usize; 10],
    words: &[u32],
    reals: &[f64],
    nums: &mut [u32],
    t: Tally,
    e: u32,
    fins: &[u32],
) -> Tally
    requires fit { Fit room.now words.now reals.now }
    requires enough { Enough t (manifold (decode room.now words.now reals.now) e fins.now) }
    ensures { Noted (manifold (decode room.now words.now reals.now) e fins.now) nums.old t nums.new result }
{
    if fins.len() != 2 {
        return note(nums, t, 19, EDGE, e);
    }
    let equal = same_senses(room, words, fins[0], fins[1]);
    note_if(nums, t, equal, 20, EDGE, e)
}

fn manifold_edge(
    room: &[usize; 10],
    words: &[u32],
    reals: &[f64],
    nums: &mut [u32],
    t: Tally,
    e: u32,
) -> Tally
    requires fit { Fit room.now words.now reals.now }
    requires enough { Enough t (manifold_edge (decode room.now words.now reals.now) e) }
    ensures { Noted (manifold_edge (decode room.now words.now reals.now) e) nums.old t nums.new result }
{
    if done(t) {
        return t;
    }
    if words[EDGES] <= e {
        return t;
    }
    let fins = list(room, words, EDGE_FINS, e as usize);
    manifold_fins(room, words, reals, nums, t, e, fins)
}

fn all_manifold(
    room: &[usize; 10],
    words: &[u32],
    reals: &[f64],
    nums: &mut [u32],
    t: Tally,
    ids: &[u32],
) -> Tally
    requires fit { Fit room.now words.now reals.now }
    requires enough { Enough t (joined (manifold_edge (decode room.now words.now reals.now)) ids.now) }
    ensures { Noted (joined (manifold_edge (decode room.now words.now reals.now)) ids.now) nums.old t nums.new result }
{
    let mut tally = t;
    for id in ids {
        tally = manifold_edge(room, words, reals, nums, tally, *id);
    }
    tally
}

// Puts the ids that source p of the path lists and no source before it into the front of the buffer, and returns how many they are.
fn new_ids(
    room: &[usize; 10],
    words: &[u32],
    path: &[u32],
    p: usize,
    marks: &mut [u8],
    buf: &mut [u32],
) -> usize
    requires lists { Lists room.now words.now }
    requires sources { Sources room.now words.now path.now }
    requires p_in_bounds { (p < length path.now) × (1024 ≤ length buf.old) }
    requires marked { Marked marks.old (ids_of room.now words.now (take p path.now)) }
    ensures { Fresh (ids_of room.now words.now (take p path.now)) (part_of room.now words.now (word path.now p)) buf.new marks.new 1024 result }
{
    let n = part(room, words, path[p], buf);
    fresh(room, words, path, p, marks, buf, n)
}

// The edges of a path, each at its first meeting.
fn manifold_path(
    room: &[usize; 10],
    words: &[u32],
    reals: &[f64],
    nums: &mut [u32],
    t: Tally,
    path: &[u32],
    marks: &mut [u8],
    buf: &mut [u32],
) -> Tally
    requires fit { Fit room.now words.now reals.now }
    requires sources { Sources room.now words.now path.now }
    requires path_len_bound { (length path.now ≤ 8448) × (1024 ≤ length buf.old) }
    requires marked { Marked marks.old [] }
    requires enough { Enough t (joined (manifold_edge (decode room.now words.now reals.now)) (firsts (ids_of room.now words.now path.now))) }
    ensures { Noted (joined (manifold_edge (decode room.now words.now reals.now)) (firsts (ids_of room.now words.now path.now))) nums.old t nums.new result }
{
    let mut tally = t;
    for p in 0..path.len() {
        if done(tally) {
            return tally;
        }
        let n = new_ids(room, words, path, p, marks, buf);
        tally = all_manifold(room, words, reals, nums, tally, &buf[..n]);
    }
    tally
}

// The edges of a body. The marks come all zero and are left so.
pub fn manifold_edges(
    room: &[usize; 10],
    words: &[u32],
    reals: &[f64],
    nums: &mut [u32],
    t: Tally,
    body: usize,
    faces: &mut [u8],
    edges: &mut [u8],
) -> Tally
    requires fit { Fit room.now words.now reals.now }
    requires looped { Looped room.now words.now body }
    requires marked { Marked faces.old [] }
    requires marked_2 { Marked edges.old [] }
    requires enough { Enough t (joined (manifold_edge (decode room.now words.now reals.now)) (edge_walk (decode room.now words.now reals.now) body)) }
    ensures noted { Noted (joined (manifold_edge (decode room.now words.now reals.now)) (edge_walk (decode room.now words.now reals.now) body)) nums.old t nums.new result }
    ensures faces_after { faces.new ≡ replicate (length faces.old) 0 }
    ensures edges_after { edges.new ≡ replicate (length edges.old) 0 }
{
    let mut path = [0u32; 8448];
    let n = edge_path(room, words, body, faces, &mut path);
    let mut buf = [0u32; 1024];
    let r = manifold_path(room, words, reals, nums, t, &path[..n], edges, &mut buf);
    clear(edges);
    r
}
