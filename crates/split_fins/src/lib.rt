// Inner: the fins of an edge by their own words, test 3 of euler.rs's `split_line_edge`, and test 11 as far as the loop. A fin's words are owner, edge,
// sense, pcurve mark.
#![tactic(auto)]

ghost use Rattle.std.specs.Prelude.{◌≡◌, ◌<◌, cond, length, take, get_or};
ghost use Rattle.meaning.specs.Lists.{member};
ghost use Rattle.meaning.specs.Refuse.{first_of};
ghost use Rattle.memory_layout.specs.Names.{LOOPS, FINS, AT_LOOP_FACE, AT_FIN_LOOP};
ghost use Rattle.memory_layout.specs.Layout.{word, words_of};
ghost use Rattle.memory_layout.specs.Fit.{Lists};
ghost use Rattle.split_fins.specs.Fins.{pcurve_test, use_test};
ghost use Rattle.split_fins.specs.Facts.{Present};

use memory_layout::layout::words_of;
use memory_layout::names::{AT_FIN_EDGE, AT_FIN_LOOP, AT_FIN_PCURVE, AT_LOOP_FACE, FINS, LOOPS};
use split_segment::refusals::{then, unless};

// Test 3, of one fin.
fn pcurve_refusal(room: &[usize; 10], words: &[u32], fin: usize) -> u32
    requires { Lists room.now words.now }
    ensures { result ≡ pcurve_test room.now words.now fin }
{
    if words[FINS] as usize <= fin {
        return 2;
    }
    let w = words_of(room, words, FINS, fin);
    unless(7, w[AT_FIN_PCURVE] == 0)
}

// Test 3.
pub fn pcurves_refusal(room: &[usize; 10], words: &[u32], fins: &[u32]) -> u32
    requires { Lists room.now words.now }
    ensures { result ≡ first_of (pcurve_test room.now words.now) fins.now }
{
    let mut n = 0;
    for fin in fins {
        n = then(n, pcurve_refusal(room, words, *fin as usize));
    }
    n
}

// Whether x is an entry.
fn occurs(s: &[u32], x: u32) -> bool
    ensures { result ≡ member x s.now }
{
    let mut found = false;
    for id in s {
        found = found | (x == *id);
    }
    found
}

// Test 11 as far as the loop: repeated, another edge's, its loop missing.
pub fn use_refusal(room: &[usize; 10], words: &[u32], fins: &[u32], k: usize, edge: usize) -> u32
    requires lists { Lists room.now words.now }
    requires present { Present words.now fins.now }
    requires k_in_bounds { k < length fins.now }
    ensures { result ≡ use_test room.now words.now edge (take k fins.now) (get_or fins.now k 0) }
{
    let fin = fins[k];
    let w = words_of(room, words, FINS, fin as usize);
    let once = unless(1, !occurs(&fins[..k], fin));
    then(
        once,
        then(
            unless(1, w[AT_FIN_EDGE] as usize == edge),
            unless(2, w[AT_FIN_LOOP] < words[LOOPS]),
        ),
    )
}

// The loop of a fin, and the face of a loop.
pub fn owner_of(room: &[usize; 10], words: &[u32], fin: usize) -> usize
    requires lists { Lists room.now words.now }
    requires fin_bound { fin < word words.now FINS }
    ensures { result ≡ word (words_of room.now words.now FINS fin) AT_FIN_LOOP }
{
    let w = words_of(room, words, FINS, fin);
    w[AT_FIN_LOOP] as usize
}

pub fn face_of(room: &[usize; 10], words: &[u32], owner: usize) -> usize
    requires lists { Lists room.now words.now }
    requires owner_bound { owner < word words.now LOOPS }
    ensures { result ≡ word (words_of room.now words.now LOOPS owner) AT_LOOP_FACE }
{
    let w = words_of(room, words, LOOPS, owner);
    w[AT_LOOP_FACE] as usize
}

pub fn one_if(met: bool) -> usize
    ensures { result ≡ cond met 1 0 }
{
    if met {
        return 1;
    }
    0
}
