// Inner: the fins of a face's loop (W-212): each ends where the next starts, the last where the first does.
#![tactic(auto)]

ghost use Rattle.std.specs.Prelude.{◌≡◌, true, List, ◌+◌, ◌≤◌, ◌<◌, Float, length, get_or};
ghost use Rattle.meaning.specs.Lists.{all};
ghost use Rattle.meaning.specs.Refuse.{first_refusal};
ghost use Rattle.meaning_slabs.specs.Slabs.{steps, closed, ends_at};
ghost use Rattle.memory_layout.specs.Decode.{maybe_at, decode};
ghost use Rattle.memory_layout.specs.Fit.{Lists};
ghost use Rattle.inquire_fin_starts.specs.Starts.{fin_whole, Whole};
ghost use Rattle.slab_fins.specs.Ends.{numbered, open_fin};

use inquire_fin_starts::{edge_of, place_of};
use slab_axes::{then, unless_holds};

// The end at a place of an edge's words: 0 where there is none, else its vertex and one.
fn end_number(edge: &[u32], at: usize) -> u64
    requires { (length edge.now ≡ 16) × (at ≤ 2) }
    ensures { result ≡ numbered (maybe_at edge.now at) }
{
    if edge[at] == 0 {
        return 0;
    }
    edge[at + 1] as u64 + 1
}

// Does the fin i end where j starts?
fn ends_at(room: &[usize; 10], words: &[u32], i: usize, j: usize) -> bool
    requires lists { Lists room.now words.now }
    requires whole { Whole room.now words.now i × Whole room.now words.now j }
    ensures { (x : List Float) → result ≡ ends_at (decode room.now words.now x) i j }
{
    let at = 2 - place_of(room, words, i);
    let end = end_number(edge_of(room, words, i), at);
    let place = place_of(room, words, j);
    let start = end_number(edge_of(room, words, j), place);
    (end != 0) & (start == end)
}

// The fin behind fin k: behind the last comes the first.
pub fn next_of(fins: &[u32], k: usize) -> u32
    requires { k < length fins.now }
    ensures { result ≡ get_or (closed fins.now) (k + 1) 0 }
{
    let i = k + 1;
    if i < fins.len() {
        return fins[i];
    }
    fins[0]
}

// The first fin that does not end where the next starts.
pub fn broken_fin(room: &[usize; 10], words: &[u32], fins: &[u32]) -> u64
    requires lists { Lists room.now words.now }
    requires fins_value { all (fin_whole room.now words.now) fins.now ≡ true }
    ensures { (x : List Float) → result ≡ first_refusal (steps (open_fin (decode room.now words.now x)) (closed fins.now)) }
{
    let mut n: u64 = 0;
    for (k, fin) in fins.iter().enumerate() {
        let next = next_of(fins, k);
        n = then(
            n,
            unless_holds(*fin, ends_at(room, words, *fin as usize, next as usize)),
        );
    }
    n
}
