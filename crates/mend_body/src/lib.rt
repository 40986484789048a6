// Inner: `mend_changes`, the changes that a mending of a body makes, listed and not made, and `mend`, which makes them (W-208), whatever the body's office; callers ask `office_mends`. `specs/Answers.antt` says what they
// answer and leave. What is refused is known before a word is written: the walk is made on a list with no entry first.
#![tactic(auto)]

ghost use Rattle.std.specs.Prelude.{◌≡◌, List, ◌<◌, length, replicate, Float};
ghost use Rattle.memory_layout.specs.Decode.{decode};
ghost use Rattle.meaning_mends.specs.Mends.{mend_refusal};
ghost use Rattle.mend_meetings.specs.Machine.{FULL};
ghost use Rattle.mend_body.specs.Answers.{mend_number, mend_count, mend_list, mend_words};
ghost use Rattle.mend_body.specs.Facts.{Tested};

use memory_readable::readable;
use mend_tests::lists_refusal;
use mend_walk::body_walk;
use mend_writes::apply;
use walk_marks::clear;

// The refusal's number, and where it is 0 how many changes there are.
#[derive(Clone, Copy)]
pub struct Mending {
    pub refused: u32,
    pub changes: usize,
}

// How many marks a walk needs: one for each region, shell, loop, fin and edge of the largest tables.
const MARKS: usize = 6912;

// What a mending of readable memory is refused with, where the list has so many entries. The marks come all zero and are left so.
fn readable_refusal(
    room: &[usize; 10],
    words: &[u32],
    body: usize,
    marks: &mut [u8],
    space: usize,
) -> u32
    requires tested { Tested room.now words.now marks.old }
    requires space_bound { space < FULL }
    ensures number { (x : List Float) → result ≡ mend_refusal (decode room.now words.now x) body space }
    ensures marks { marks.new ≡ replicate (length marks.old) 0 }
{
    let n = lists_refusal(room, words, body);
    if n != 0 {
        return n;
    }
    let mut none: [u32; 0] = [];
    let count = body_walk(room, words, &mut none, marks, body);
    clear(marks);
    if space < count {
        return 8;
    }
    0
}

fn refusal(
    room: &[usize; 10],
    words: &[u32],
    reals: &[f64],
    body: usize,
    marks: &mut [u8],
    nums: &[u32],
) -> u32
    ensures number { result ≡ mend_number room.now words.now reals.now body marks.old nums.now }
    ensures marks { marks.new ≡ replicate (length marks.old) 0 }
{
    clear(marks);
    if !readable(room, words, reals) {
        return 9;
    }
    if marks.len() < MARKS {
        return 8;
    }
    readable_refusal(room, words, body, marks, nums.len() / 6)
}

// The changes, listed.
pub fn mend_changes(
    room: &[usize; 10],
    words: &[u32],
    reals: &[f64],
    body: usize,
    marks: &mut [u8],
    nums: &mut [u32],
) -> Mending
    ensures refused { result.refused ≡ mend_number room.now words.now reals.now body marks.old nums.old }
    ensures changes { result.changes ≡ mend_count room.now words.now reals.now body marks.old nums.old }
    ensures list { nums.new ≡ mend_list room.now words.now reals.now body marks.old nums.old }
    ensures marks { marks.new ≡ replicate (length marks.old) 0 }
{
    let n = refusal(room, words, reals, body, marks, &nums[..]);
    if n != 0 {
        return Mending {
            refused: n,
            changes: 0,
        };
    }
    let count = body_walk(room, words, nums, marks, body);
    clear(marks);
    Mending {
        refused: 0,
        changes: count,
    }
}

// The changes, listed and made.
pub fn mend(
    room: &[usize; 10],
    words: &mut [u32],
    reals: &[f64],
    body: usize,
    marks: &mut [u8],
    nums: &mut [u32],
) -> Mending
    ensures refused { result.refused ≡ mend_number room.now words.old reals.now body marks.old nums.old }
    ensures changes { result.changes ≡ mend_count room.now words.old reals.now body marks.old nums.old }
    ensures list { nums.new ≡ mend_list room.now words.old reals.now body marks.old nums.old }
    ensures tables { words.new ≡ mend_words room.now words.old reals.now body marks.old nums.old }
    ensures marks { marks.new ≡ replicate (length marks.old) 0 }
{
    let r = mend_changes(room, &words[..], reals, body, marks, nums);
    if r.refused != 0 {
        return r;
    }
    let end = 6 * r.changes;
    apply(room, words, &nums[..end]);
    r
}
