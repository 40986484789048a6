// For callers: `edge_parameter_bounds` of euler.rs. `specs/Answers.antt` says what it answers. Inner: its tests, which the split makes too, and the
// module `ends`, what they read.
#![tactic(auto)]

pub mod ends;

ghost use Rattle.std.specs.Prelude.{◌≡◌};
ghost use Rattle.meaning.specs.Split.{bounds_refusal};
ghost use Rattle.memory_layout.specs.Decode.{decode};
ghost use Rattle.memory_layout.specs.Fit.{Fit};
ghost use Rattle.split_bounds.specs.Answers.{bounds_number, bounds_answer};

use crate::ends::{ends_refusal, segment_at};
use memory_readable::readable;
use split_segment::segment::span_refusal;

#[derive(Clone, Copy)]
pub struct ParamRange {
    pub lo: f64,
    pub hi: f64,
}

// The parameters of the ends, or the refusal's number.
#[derive(Clone, Copy)]
pub enum Bounds {
    Is(ParamRange),
    Refused(u32),
}

// Tests 2 and 4 to 8.
pub fn bounds_refusal(room: &[usize; 10], words: &[u32], reals: &[f64], edge: usize) -> u32
    requires { Fit room.now words.now reals.now }
    ensures { result ≡ bounds_refusal (decode room.now words.now reals.now) edge }
{
    let n = ends_refusal(room, words, reals, edge);
    if n != 0 {
        return n;
    }
    span_refusal(segment_at(room, words, reals, edge))
}

// 9, then those tests.
fn refusal(room: &[usize; 10], words: &[u32], reals: &[f64], edge: usize) -> u32
    ensures { result ≡ bounds_number room.now words.now reals.now edge }
{
    if !readable(room, words, reals) {
        return 9;
    }
    bounds_refusal(room, words, reals, edge)
}

// The parameter bounds of a straight edge on its line.
pub fn edge_parameter_bounds(
    room: &[usize; 10],
    words: &[u32],
    reals: &[f64],
    edge: usize,
) -> Bounds
    ensures { result ≡ bounds_answer room.now words.now reals.now edge }
{
    let n = refusal(room, words, reals, edge);
    if n != 0 {
        return Bounds::Refused(n);
    }
    let segment = segment_at(room, words, reals, edge);
    Bounds::Is(ParamRange {
        lo: segment.lo(),
        hi: segment.hi(),
    })
}
