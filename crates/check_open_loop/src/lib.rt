// Inner: the fins of a loop, each against the next (the part of `loop_` of gensolid-check's lib.rs that finds open loops).
#![tactic(auto)]

ghost use Rattle.std.specs.Prelude.{◌≡◌, true, List, ◌<◌, Float, length, get_or};
ghost use Rattle.meaning.specs.Lists.{rotated};
ghost use Rattle.meaning.specs.Walks.{ends_of, readable_fin};
ghost use Rattle.meaning.specs.Faults.{open_at, opens};
ghost use Rattle.memory_layout.specs.Decode.{decode};
ghost use Rattle.memory_layout.specs.Fit.{Lists, Fit};
ghost use Rattle.check_reasons.specs.Log.{Noted, Enough};
ghost use Rattle.check_open_loop.specs.OpenLoop.{directed_refs, seen_ends, open_between};

use check_ends::refs::same_ref;
use check_reasons::{FIN, Tally, done, note_if};
use memory_layout::names::{EDGES, FINS};
use memory_reads::{edge_at, fin_at};
use memory_records::records::Sense;

// Where a fin starts and ends.
#[derive(Clone, Copy)]
pub struct FinEnds {
    pub start: Option<u32>,
    pub end: Option<u32>,
}

// Do the fin and its edge exist?
fn readable_fin(room: &[usize; 10], words: &[u32], i: u32) -> bool
    requires { Lists room.now words.now }
    ensures { (x : List Float) → result ≡ readable_fin (decode room.now words.now x) i }
{
    if words[FINS] <= i {
        return false;
    }
    fin_at(room, words, i as usize).edge < words[EDGES]
}

// The ends of an edge, in a fin's direction.
fn directed(sense: Sense, start: Option<u32>, end: Option<u32>) -> FinEnds
    ensures { result ≡ directed_refs sense start end }
{
    match sense {
        Sense::Positive => FinEnds { start, end },
        Sense::Negative => FinEnds {
            start: end,
            end: start,
        },
    }
}

fn fin_ends(room: &[usize; 10], words: &[u32], reals: &[f64], i: u32) -> FinEnds
    requires fit { Fit room.now words.now reals.now }
    requires i_value { readable_fin (decode room.now words.now reals.now) i ≡ true }
    ensures { result ≡ seen_ends (ends_of (decode room.now words.now reals.now) i) }
{
    let fin = fin_at(room, words, i as usize);
    let edge = edge_at(room, words, reals, fin.edge as usize);
    let sense = fin.sense;
    let start = edge.start;
    let end = edge.end;
    directed(sense, start, end)
}

// Does the fin i not end where the next starts? An unreadable fin makes no comparison.
fn open_between(room: &[usize; 10], words: &[u32], reals: &[f64], i: u32, next: u32) -> bool
    requires { Fit room.now words.now reals.now }
    ensures { result ≡ open_between (decode room.now words.now reals.now) i next }
{
    if !readable_fin(room, words, i) {
        return false;
    }
    if !readable_fin(room, words, next) {
        return false;
    }
    let this = fin_ends(room, words, reals, i);
    let that = fin_ends(room, words, reals, next);
    let end = this.end;
    let start = that.start;
    !same_ref(end, start)
}

fn open_at(
    room: &[usize; 10],
    words: &[u32],
    reals: &[f64],
    nums: &mut [u32],
    t: Tally,
    i: u32,
    next: u32,
) -> Tally
    requires fit { Fit room.now words.now reals.now }
    requires enough { Enough t (open_at (decode room.now words.now reals.now) i next) }
    ensures { Noted (open_at (decode room.now words.now reals.now) i next) nums.old t nums.new result }
{
    if done(t) {
        return t;
    }
    let apart = open_between(room, words, reals, i, next);
    note_if(nums, t, apart, 18, FIN, i)
}

// The fin after fin k: after the last comes the first.
fn next_of(fins: &[u32], k: usize) -> u32
    requires { k < length fins.now }
    ensures { result ≡ get_or (rotated fins.now) k 0 }
{
    let i = k + 1;
    if i < fins.len() {
        return fins[i];
    }
    fins[0]
}

// Each fin against the next, the last against the first.
pub fn open_loop(
    room: &[usize; 10],
    words: &[u32],
    reals: &[f64],
    nums: &mut [u32],
    t: Tally,
    fins: &[u32],
) -> Tally
    requires fit { Fit room.now words.now reals.now }
    requires enough { Enough t (opens (decode room.now words.now reals.now) fins.now (rotated fins.now)) }
    ensures { Noted (opens (decode room.now words.now reals.now) fins.now (rotated fins.now)) nums.old t nums.new result }
{
    let mut tally = t;
    for (k, id) in fins.iter().enumerate() {
        let next = next_of(fins, k);
        tally = open_at(room, words, reals, nums, tally, *id, next);
    }
    tally
}
