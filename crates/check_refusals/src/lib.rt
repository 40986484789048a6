// Inner: what `check_body` tests before it looks at the body, and how many of the faults it keeps.
#![tactic(auto)]

ghost use Rattle.std.specs.Prelude.{◌≡◌, cond, ltb};
ghost use Rattle.memory_layout.specs.Decode.{decode};
ghost use Rattle.memory_layout.specs.Readable.{readable};
ghost use Rattle.walk_answers.specs.Decoded.{refused_by};
ghost use Rattle.check_refusals.specs.Facts.{ask_refusal};

use memory_layout::names::BODIES;
use memory_readable::readable;

// 9, 8 for short marks, 1 for too many samples, 2 for no such body.
pub fn refusal(
    room: &[usize; 10],
    words: &[u32],
    reals: &[f64],
    enough: bool,
    samples: usize,
    body: usize,
) -> u32
    ensures { result ≡ refused_by (readable room.now words.now reals.now) enough (ask_refusal (decode room.now words.now reals.now) samples body) }
{
    if !readable(room, words, reals) {
        return 9;
    }
    if !enough {
        return 8;
    }
    if 255 < samples {
        return 1;
    }
    if words[BODIES] as usize <= body {
        return 2;
    }
    0
}

// As many of the first as fit.
pub fn kept_of(faults: usize, space: usize) -> usize
    ensures { result ≡ cond (ltb faults space) faults space }
{
    if faults < space {
        return faults;
    }
    space
}
