// Inner: the ids that the sources of a path list, each at its first meeting. Who visits them without a list of his own calls `part` and `fresh`
// for one source after the other.
#![tactic(auto)]

ghost use Rattle.std.specs.Prelude.{◌≡◌, cond, [], ◌++◌, ◌+◌, ◌<◌, ◌≤◌, ltb, length, take};
ghost use Rattle.meaning.specs.Lists.{all, member};
ghost use Rattle.memory_layout.specs.Fit.{Lists};
ghost use Rattle.walk_marks.specs.Marks.{Marked};
ghost use Rattle.walk_sources.specs.Sources.{Sources};
ghost use Rattle.walk_visits.specs.Visits.{ids_of, Fresh, Visited};

use walk_marks::{all_below, has, mark, put, put_all};
use walk_sources::part;

// Is each id that the path's sources list below `used`?
pub fn all_listed(room: &[usize; 10], words: &[u32], path: &[u32], used: u32) -> bool
    requires lists { Lists room.now words.now }
    requires sources { Sources room.now words.now path.now }
    ensures { result ≡ all (λ x. ltb x used) (ids_of room.now words.now path.now) }
{
    let mut buf = [0u32; 1024];
    let mut ok = true;
    for source in path {
        let n = part(room, words, *source, &mut buf);
        ok = ok & all_below(&buf[..n], used);
    }
    ok
}

// Is x listed by one of the first p sources?
fn listed(room: &[usize; 10], words: &[u32], path: &[u32], p: usize, x: u32) -> bool
    requires lists { Lists room.now words.now }
    requires sources { Sources room.now words.now path.now }
    requires p_in_bounds { p ≤ length path.now }
    ensures { result ≡ member x (ids_of room.now words.now (take p path.now)) }
{
    let mut buf = [0u32; 1024];
    let mut found = false;
    for source in &path[..p] {
        let n = part(room, words, *source, &mut buf);
        found = found | has(&buf[..n], x);
    }
    found
}

// Is x listed by one of the first p sources, or one of the ids `new`? The marks know it where they reach; else it is searched.
fn met(
    room: &[usize; 10],
    words: &[u32],
    path: &[u32],
    p: usize,
    marks: &[u8],
    new: &[u32],
    x: u32,
) -> bool
    requires lists { Lists room.now words.now }
    requires sources { Sources room.now words.now path.now }
    requires p_in_bounds { p ≤ length path.now }
    requires marked { Marked marks.now (ids_of room.now words.now (take p path.now) ++ new.now) }
    ensures { result ≡ member x (ids_of room.now words.now (take p path.now) ++ new.now) }
{
    let i = x as usize;
    if i < marks.len() {
        return marks[i] != 0;
    }
    listed(room, words, path, p, x) | has(new, x)
}

// One more, unless it was met.
fn counted(seen: bool, n: usize) -> usize
    requires { n < 4294967296 }
    ensures { result ≡ cond seen n (n + 1) }
{
    if seen { n } else { n + 1 }
}

// Of the first n ids of the buffer, what source p of the path lists, moves those to the front that are met for the first time, marks
// them and returns how many they are.
pub fn fresh(
    room: &[usize; 10],
    words: &[u32],
    path: &[u32],
    p: usize,
    marks: &mut [u8],
    buf: &mut [u32],
    n: usize,
) -> usize
    requires lists { Lists room.now words.now }
    requires sources { Sources room.now words.now path.now }
    requires p_in_bounds { (p ≤ length path.now) × (n ≤ length buf.old) × (n ≤ 1024) }
    requires marked { Marked marks.old (ids_of room.now words.now (take p path.now)) }
    ensures { Fresh (ids_of room.now words.now (take p path.now)) (take n buf.old) buf.new marks.new n result }
{
    let mut m = 0;
    for k in 0..n {
        let x = buf[k];
        let seen = met(room, words, path, p, &marks[..], &buf[..m], x);
        mark(marks, x);
        put(buf, m, x);
        m = counted(seen, m);
    }
    m
}

// Puts the ids that the path's sources list into the front of the list, each at its first meeting, as many of the first as fit, and
// returns how many there are. The marks come all zero.
pub fn visit(
    room: &[usize; 10],
    words: &[u32],
    path: &[u32],
    marks: &mut [u8],
    out: &mut [u32],
) -> usize
    requires lists { Lists room.now words.now }
    requires sources { Sources room.now words.now path.now }
    requires path_len_bound { length path.now ≤ 8448 }
    requires marked { Marked marks.old [] }
    ensures { Visited (ids_of room.now words.now path.now) out.old out.new result }
{
    let mut buf = [0u32; 1024];
    let mut n = 0;
    for (p, source) in path.iter().enumerate() {
        let k = part(room, words, *source, &mut buf);
        let m = fresh(room, words, path, p, marks, &mut buf, k);
        put_all(out, n, &buf[..m]);
        n = n + m;
    }
    n
}
