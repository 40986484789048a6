// A face's loops and their fins: whether they exist, and whether the edges that the fins name are straight.
ghost use Rattle.std.specs.Prelude.{◌≡◌};
ghost use Rattle.meaning.specs.Refuse.{first_of};
ghost use Rattle.memory_layout.specs.Fit.{Fit};
ghost use Rattle.inquire_polyhedral.specs.Tested.{fin_straight, loop_straight, face_straight, face_there};

use crate::carriers::straight_edge;
use memory_layout::layout::words_of;
use memory_layout::names::{AT_FIN_EDGE, FACE_LOOPS, FACES, FINS, LOOP_FINS, LOOPS};
use memory_lists::list;
use split_segment::refusals::{then, unless};
use walk_sources::all_followed;

// The fin missing 2, then its edge's number.
fn fin_refusal(room: &[usize; 10], words: &[u32], reals: &[f64], i: usize) -> u32
    requires { Fit room.now words.now reals.now }
    ensures { result ≡ fin_straight room.now words.now reals.now i }
{
    if words[FINS] as usize <= i {
        return 2;
    }
    let w = words_of(room, words, FINS, i);
    straight_edge(room, words, reals, w[AT_FIN_EDGE] as usize)
}

// The first refusal among the fins.
fn fins_refusal(room: &[usize; 10], words: &[u32], reals: &[f64], fins: &[u32]) -> u32
    requires { Fit room.now words.now reals.now }
    ensures { result ≡ first_of (fin_straight room.now words.now reals.now) fins.now }
{
    let mut n = 0;
    for fin in fins {
        n = then(n, fin_refusal(room, words, reals, *fin as usize));
    }
    n
}

// The loop missing 2, then that of its fins.
fn loop_refusal(room: &[usize; 10], words: &[u32], reals: &[f64], i: usize) -> u32
    requires { Fit room.now words.now reals.now }
    ensures { result ≡ loop_straight room.now words.now reals.now i }
{
    if words[LOOPS] as usize <= i {
        return 2;
    }
    fins_refusal(room, words, reals, list(room, words, LOOP_FINS, i))
}

// The first refusal among the loops.
fn loops_refusal(room: &[usize; 10], words: &[u32], reals: &[f64], loops: &[u32]) -> u32
    requires { Fit room.now words.now reals.now }
    ensures { result ≡ first_of (loop_straight room.now words.now reals.now) loops.now }
{
    let mut n = 0;
    for rim in loops {
        n = then(n, loop_refusal(room, words, reals, *rim as usize));
    }
    n
}

// The face missing 2, then that of its loops.
pub fn straight_face(room: &[usize; 10], words: &[u32], reals: &[f64], i: usize) -> u32
    requires { Fit room.now words.now reals.now }
    ensures { result ≡ face_straight room.now words.now reals.now i }
{
    if words[FACES] as usize <= i {
        return 2;
    }
    loops_refusal(room, words, reals, list(room, words, FACE_LOOPS, i))
}

// The face, one of its loops or one of their fins missing 2.
pub fn face_there(room: &[usize; 10], words: &[u32], reals: &[f64], i: usize) -> u32
    requires { Fit room.now words.now reals.now }
    ensures { result ≡ face_there room.now words.now i }
{
    if words[FACES] as usize <= i {
        return 2;
    }
    let loops = list(room, words, FACE_LOOPS, i);
    unless(2, all_followed(room, words, LOOP_FINS, loops))
}
