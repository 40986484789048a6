// Inner: a body as a stone of the yard's sheet (W-201), whatever its office; callers ask `office_sheets`. specs/Answers.antt says what it answers.
#![tactic(auto)]

ghost use Rattle.std.specs.Prelude.{◌≡◌, length, replicate};
ghost use Rattle.inquire_stone.specs.Answers.{stone_answer};
ghost use Rattle.inquire_stone.specs.Told.{weight_number, told_stone};

use inquire_regions::Tally;
use inquire_tally::body_tally;
use inquire_weight::Weight;
use split_segment::refusals::{then, unless};

// The refusal's number, or 0 and six times the volume, plus - minus.
#[derive(Clone, Copy)]
pub struct Stone {
    pub refused: u32,
    pub plus: u64,
    pub minus: u64,
}

// A point off the grid 5, more than 4,096 triangles 8.
fn weight_refusal(w: Weight) -> u32
    ensures { result ≡ weight_number w }
{
    then(unless(5, !w.off), unless(8, w.triangles <= 4096))
}

// The sums, unless a side is refused, there is none, or it cannot be weighed.
fn told(t: Tally) -> Stone
    ensures { result ≡ told_stone t }
{
    let w = t.weight;
    let n = then(then(t.refused, unless(4, !t.empty)), weight_refusal(w));
    if n != 0 {
        return Stone {
            refused: n,
            plus: 0,
            minus: 0,
        };
    }
    Stone {
        refused: 0,
        plus: w.plus,
        minus: w.minus,
    }
}

// Six times the volume of a body's solid regions. `faces` are seen marks.
pub fn body_stone(
    room: &[usize; 10],
    words: &[u32],
    reals: &[f64],
    body: usize,
    faces: &mut [u8],
) -> Stone
    ensures answer { result ≡ stone_answer room.now words.now reals.now body faces.old }
    ensures faces { faces.new ≡ replicate (length faces.old) 0 }
{
    told(body_tally(room, words, reals, true, body, faces))
}
