// The box of the vertices that a path lists (the loop of `body_bounding_box`, inquire.rs).
ghost use Rattle.std.specs.Prelude.{◌≡◌, true, map, ◌≤◌, ◌<◌, ltb, length, replicate};
ghost use Rattle.meaning.specs.Lists.{all, firsts};
ghost use Rattle.meaning.specs.Model.{point_of};
ghost use Rattle.memory_layout.specs.Names.{VERTICES};
ghost use Rattle.memory_layout.specs.Layout.{word};
ghost use Rattle.memory_layout.specs.Decode.{decode};
ghost use Rattle.memory_layout.specs.Fit.{Fit};
ghost use Rattle.walk_sources.specs.Sources.{Sources};
ghost use Rattle.walk_visits.specs.Visits.{ids_of};
ghost use Rattle.inquire_bbox.specs.Boxes.{extent_of};
ghost use Rattle.inquire_box.specs.Walked.{extent_box, walk_box};

use float_vectors::vector::Point3;
use inquire_bbox::bbox::Extent;
use memory_layout::names::VERTICES;
use memory_reads::vertex_at;
use station_answers::BoxFound;
use walk_marks::clear;
use walk_visits::{all_listed, visit};

// The point of a vertex.
fn point_at(room: &[usize; 10], words: &[u32], reals: &[f64], i: usize) -> Point3
    requires fit { Fit room.now words.now reals.now }
    requires i_bound { i < word words.now VERTICES }
    ensures { result ≡ point_of (decode room.now words.now reals.now) i }
{
    vertex_at(room, words, reals, i).point
}

// What is known of the vertices' points, met in order.
fn extent(room: &[usize; 10], words: &[u32], reals: &[f64], ids: &[u32]) -> Extent
    requires fit { Fit room.now words.now reals.now }
    requires ids_value { all (λ v. ltb v (word words.now VERTICES)) ids.now ≡ true }
    ensures { result ≡ extent_of (map (point_of (decode room.now words.now reals.now)) ids.now) }
{
    let mut e = Extent::none();
    for id in ids {
        let point = point_at(room, words, reals, *id as usize);
        e = e.with(point);
    }
    e
}

// No vertex 4, a coordinate that is not finite 4.
fn extent_box(e: Extent) -> BoxFound
    ensures { result ≡ extent_box e }
{
    if e.empty {
        return BoxFound::Refused(4);
    }
    if !e.finite {
        return BoxFound::Refused(4);
    }
    let bounds = e.bounds;
    BoxFound::Is(bounds)
}

// The box of what the path lists, each vertex at its first meeting; a missing vertex 2. The marks come all zero and are left so.
pub fn path_box(
    room: &[usize; 10],
    words: &[u32],
    reals: &[f64],
    path: &[u32],
    marks: &mut [u8],
) -> BoxFound
    requires fit { Fit room.now words.now reals.now }
    requires sources { Sources room.now words.now path.now }
    requires path_len_bound { length path.now ≤ 8448 }
    requires marks_value { marks.old ≡ replicate (length marks.old) 0 }
    ensures value { result ≡ walk_box (decode room.now words.now reals.now) (firsts (ids_of room.now words.now path.now)) }
    ensures marks_after { marks.new ≡ replicate (length marks.old) 0 }
{
    if !all_listed(room, words, path, words[VERTICES]) {
        return BoxFound::Refused(2);
    }
    let mut list = [0u32; 2048];
    let n = visit(room, words, path, marks, &mut list);
    clear(marks);
    extent_box(extent(room, words, reals, &list[..n]))
}
