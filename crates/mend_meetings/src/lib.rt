// Inner: a record that is met in a list of a body, and what a mending changes of it (W-208): its parent, and, of a fin, its edge's list. The tables are read, and the change is put into a list as far as it has entries, so that on a list with
// none the changes are counted. Marks say which records were met, and how many fins an edge gets (`specs/Machine.antt`).
#![tactic(auto)]

ghost use Rattle.std.specs.Prelude.{◌≡◌, List, [], ◌∷◌, ℕ, ◌≤◌, ◌<◌, length};
ghost use Rattle.meaning.specs.Model.{fin};
ghost use Rattle.memory_layout.specs.Layout.{word};
ghost use Rattle.memory_layout.specs.Fit.{Lists};
ghost use Rattle.meaning_mends.specs.Mends.{Child, child_table, met};
ghost use Rattle.mend_meetings.specs.Machine.{mark_at, entry_put, logged, rename_step, enlist_step, Goes, Walks};
ghost use Rattle.mend_meetings.specs.Facts.{Ready, Present, model_of};

use memory_layout::layout::words_of;
use memory_layout::names::{AT_FIN_EDGE, EDGE_FINS, EDGES, FINS};
use memory_lists::list;
use walk_marks::{has, put};

// More changes than a list can have: an edge has no slot.
pub const FULL: usize = 4611686018427387904;

// The field of a change.
const PARENT: u32 = 0;

const EDGES_FINS: u32 = 1;

// Where the marks of a table begin.
const PLACES: [usize; 7] = [0, 0, 128, 0, 256, 768, 4864];

fn mark_at(k: usize, i: usize) -> usize
    requires { (k < 7) × (i ≤ 4096) }
    ensures { result ≡ mark_at k i }
{
    PLACES[k] + i
}

// Puts a change in as entry k, if the list has that entry.
fn put_change(
    nums: &mut [u32],
    k: usize,
    class: u32,
    id: u32,
    field: u32,
    place: u32,
    old: u32,
    new: u32,
)
    ensures { nums.new ≡ entry_put nums.old k (class ∷ id ∷ field ∷ place ∷ old ∷ new ∷ []) }
{
    if nums.len() / 6 <= k {
        return;
    }
    let at = 6 * k;
    put(nums, at, class);
    put(nums, at + 1, id);
    put(nums, at + 2, field);
    put(nums, at + 3, place);
    put(nums, at + 4, old);
    put(nums, at + 5, new);
}

// One change more.
fn log(
    nums: &mut [u32],
    count: usize,
    class: u32,
    id: u32,
    field: u32,
    place: u32,
    old: u32,
    new: u32,
) -> usize
    ensures { (s : List ℕ) → Goes (logged (class ∷ id ∷ field ∷ place ∷ old ∷ new ∷ [])) nums.old s count nums.new s result }
{
    if FULL <= count {
        return count;
    }
    put_change(nums, count, class, id, field, place, old, new);
    count + 1
}

// The parent that the record i of table k names, where it is not p. It stands first in the record.
fn rename(
    room: &[usize; 10],
    words: &[u32],
    nums: &mut [u32],
    count: usize,
    k: usize,
    p: u32,
    i: u32,
) -> usize
    requires lists { Lists room.now words.now }
    requires present { Present room.now words.now k i }
    ensures { (c : Child) (s : List ℕ) → child_table c ≡ k → Goes (rename_step (model_of room.now words.now) c p i) nums.old s count nums.new s result }
{
    let w = words_of(room, words, k, i as usize);
    let old = w[0];
    if old == p {
        return count;
    }
    log(nums, count, k as u32, i, PARENT, 0, old, p)
}

// The edge that the fin i names.
fn fin_edge(room: &[usize; 10], words: &[u32], i: u32) -> u32
    requires lists { Lists room.now words.now }
    requires present { Present room.now words.now 5 i }
    ensures { result ≡ (fin (model_of room.now words.now) i).edge }
{
    words_of(room, words, FINS, i as usize)[AT_FIN_EDGE]
}

fn mark_of(marks: &[u8], at: usize) -> u8
    requires { at < length marks.now }
    ensures { result ≡ word marks.now at }
{
    marks[at]
}

// The fin i, where its edge does not list it.
fn enlist(
    room: &[usize; 10],
    words: &[u32],
    nums: &mut [u32],
    marks: &mut [u8],
    count: usize,
    i: u32,
) -> usize
    requires ready { Ready room.now words.now marks.old }
    requires present { Present room.now words.now 5 i }
    ensures { Goes (enlist_step (model_of room.now words.now) i) nums.old marks.old count nums.new marks.new result }
{
    let e = fin_edge(room, words, i);
    let fins = list(room, words, EDGE_FINS, e as usize);
    if has(fins, i) {
        return count;
    }
    let at = mark_at(EDGES, e as usize);
    let n = mark_of(marks, at);
    let place = fins.len() + n as usize;
    if 8 <= place {
        return FULL;
    }
    marks[at] = n + 1;
    log(nums, count, EDGES as u32, e, EDGES_FINS, place as u32, 0, i)
}

// The record i of table k, met in a list of p.
pub fn meet(
    room: &[usize; 10],
    words: &[u32],
    nums: &mut [u32],
    marks: &mut [u8],
    count: usize,
    k: usize,
    p: u32,
    i: u32,
) -> usize
    requires ready { Ready room.now words.now marks.old }
    requires present { Present room.now words.now k i }
    ensures { (c : Child) → child_table c ≡ k → Walks (model_of room.now words.now) (met c p i ∷ []) nums.old marks.old count nums.new marks.new result }
{
    let at = mark_at(k, i as usize);
    if mark_of(marks, at) != 0 {
        return count;
    }
    marks[at] = 1;
    let n = rename(room, words, nums, count, k, p, i);
    if k != FINS {
        return n;
    }
    enlist(room, words, nums, marks, n, i)
}
