// Inner: what the three walks of a body give (`body_faces`, `body_edges`, `body_vertices` of model.rs). specs/Calls.antt says which number and which
// list. Here the walk of one path; the walks themselves are crate `walk_body`.
#![tactic(auto)]

ghost use Rattle.std.specs.Prelude.{◌≡◌, ◌≤◌, length, replicate};
ghost use Rattle.meaning.specs.Lists.{firsts};
ghost use Rattle.memory_layout.specs.Fit.{Lists};
ghost use Rattle.walk_sources.specs.Sources.{Sources};
ghost use Rattle.walk_visits.specs.Visits.{ids_of};
ghost use Rattle.walk_answers.specs.Decoded.{Wrote};

use walk_marks::clear;
use walk_visits::visit;

// Walks a path: counts first, on no list at all, and fills the caller's list if it is long enough. The marks come all zero and are left so.
pub fn write_walk(
    room: &[usize; 10],
    words: &[u32],
    path: &[u32],
    marks: &mut [u8],
    out: &mut [u32],
    code: &mut u32,
) -> usize
    requires lists { Lists room.now words.now }
    requires sources { Sources room.now words.now path.now }
    requires path_len_bound { length path.now ≤ 8448 }
    requires marks_value { marks.old ≡ replicate (length marks.old) 0 }
    ensures wrote { Wrote (firsts (ids_of room.now words.now path.now)) out.old out.new code.new result }
    ensures marks_after { marks.new ≡ replicate (length marks.old) 0 }
{
    let space = out.len();
    let n = visit(room, words, path, marks, &mut out[..0]);
    clear(marks);
    if space < n {
        *code = 8;
        return 0;
    }
    let m = visit(room, words, path, marks, out);
    clear(marks);
    *code = 0;
    m
}
