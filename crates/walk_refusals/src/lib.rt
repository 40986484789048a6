// Inner: which refusal a walk gives before its list is looked at: 9, 8 for short marks, 2.
#![tactic(auto)]

ghost use Rattle.std.specs.Prelude.{◌≡◌, length, replicate};
ghost use Rattle.meaning.specs.Walks.{faces_refusal, edges_refusal, vertices_refusal};
ghost use Rattle.memory_layout.specs.Decode.{decode};
ghost use Rattle.memory_layout.specs.Readable.{readable};
ghost use Rattle.walk_answers.specs.Decoded.{refused_by};

use memory_readable::readable;
use walk_paths::{body_followed, edges_there, faces_there, loops_followed};

pub fn faces_refusal(
    room: &[usize; 10],
    words: &[u32],
    reals: &[f64],
    enough: bool,
    body: usize,
) -> u32
    ensures { result ≡ refused_by (readable room.now words.now reals.now) enough (faces_refusal (decode room.now words.now reals.now) body) }
{
    if !readable(room, words, reals) {
        return 9;
    }
    if !enough {
        return 8;
    }
    if !body_followed(room, words, body) {
        return 2;
    }
    0
}

pub fn edges_refusal(
    room: &[usize; 10],
    words: &[u32],
    reals: &[f64],
    enough: bool,
    body: usize,
    marks: &mut [u8],
) -> u32
    requires { marks.old ≡ replicate (length marks.old) 0 }
    ensures value { result ≡ refused_by (readable room.now words.now reals.now) enough (edges_refusal (decode room.now words.now reals.now) body) }
    ensures marks_after { marks.new ≡ replicate (length marks.old) 0 }
{
    let refused = faces_refusal(room, words, reals, enough, body);
    if refused != 0 {
        return refused;
    }
    if !faces_there(room, words, body) {
        return 2;
    }
    if !loops_followed(room, words, body, marks) {
        return 2;
    }
    0
}

pub fn vertices_refusal(
    room: &[usize; 10],
    words: &[u32],
    reals: &[f64],
    enough: bool,
    body: usize,
    marks: &mut [u8],
) -> u32
    requires { marks.old ≡ replicate (length marks.old) 0 }
    ensures value { result ≡ refused_by (readable room.now words.now reals.now) enough (vertices_refusal (decode room.now words.now reals.now) body) }
    ensures marks_after { marks.new ≡ replicate (length marks.old) 0 }
{
    let refused = edges_refusal(room, words, reals, enough, body, marks);
    if refused != 0 {
        return refused;
    }
    if !edges_there(room, words, body, marks) {
        return 2;
    }
    0
}
