// Inner: a face as a shell lists it, whether its volume can be told, and that volume (`oriented_face_volume` of inquire.rs). A face's words
// begin with front tag, id, back tag, id.
#![tactic(auto)]

ghost use Rattle.std.specs.Prelude.{◌≡◌, true, ◌+◌, ◌<◌, ◌≤◌, length};
ghost use Rattle.meaning.specs.Lists.{all};
ghost use Rattle.meaning.specs.Inquire.{alike, side_volume};
ghost use Rattle.memory_layout.specs.Names.{FACE_LOOPS};
ghost use Rattle.memory_layout.specs.Decode.{decode};
ghost use Rattle.memory_layout.specs.Entries.{list_of};
ghost use Rattle.memory_layout.specs.Fit.{Fit, Lists};
ghost use Rattle.inquire_fin_starts.specs.Starts.{fin_whole};
ghost use Rattle.inquire_sides.specs.Sides.{is_at, bound_number, rim_of, rim_number, side_number, face_whole};

use inquire_fan::polygon_volume;
use inquire_fin_starts::starts_refusal;
use memory_layout::layout::words_of;
use memory_layout::names::{AT_FACE_BACK, AT_FACE_FRONT, FACE_LOOPS, FACES, LOOP_FINS};
use memory_lists::list;
use split_segment::refusals::{then, unless};

// Is it this id, at a place of a record: its tag, then the id?
pub fn is_at(w: &[u32], at: usize, y: u32) -> bool
    requires { (at + 1 < length w.now) × (at ≤ 2) }
    ensures { result ≡ is_at w.now at y }
{
    (w[at] != 0) & (w[at + 1] == y)
}

fn alike(a: bool, b: bool) -> bool
    ensures { result ≡ alike a b }
{
    if a {
        return b;
    }
    !b
}

// Off the face's words: the shell not on exactly one side 1, loops not one 7.
fn bound_refusal(w: &[u32], loops: usize, shell: u32) -> u32
    requires { length w.now ≡ 24 }
    ensures { result ≡ bound_number w.now loops shell }
{
    let both = alike(
        is_at(w, AT_FACE_BACK, shell),
        is_at(w, AT_FACE_FRONT, shell),
    );
    then(unless(1, !both), unless(7, loops == 1))
}

// The fins of a face's only loop.
pub fn rim<'a>(room: &[usize; 10], words: &'a [u32], face: usize) -> &'a [u32]
    requires lists { Lists room.now words.now }
    requires face_value { face_whole room.now words.now face ≡ true }
    requires face_len { length (list_of room.now words.now FACE_LOOPS face) ≡ 1 }
    ensures { result.now ≡ rim_of room.now words.now face }
{
    let loops = list(room, words, FACE_LOOPS, face);
    list(room, words, LOOP_FINS, loops[0] as usize)
}

// Fewer than three fins 4, a start none 7, its vertex missing 2.
fn rim_refusal(room: &[usize; 10], words: &[u32], fins: &[u32]) -> u32
    requires lists { Lists room.now words.now }
    requires fins_value { all (fin_whole room.now words.now) fins.now ≡ true }
    ensures { result ≡ rim_number room.now words.now fins.now }
{
    let few = fins.len() < 3;
    then(unless(4, !few), starts_refusal(room, words, fins))
}

// Why the volume of the side cannot be told, or 0.
pub fn side_refusal(room: &[usize; 10], words: &[u32], shell: u32, face: usize) -> u32
    requires lists { Lists room.now words.now }
    requires face_value { face_whole room.now words.now face ≡ true }
    ensures { result ≡ side_number room.now words.now shell face }
{
    let loops = list(room, words, FACE_LOOPS, face).len();
    let n = bound_refusal(words_of(room, words, FACES, face), loops, shell);
    if n != 0 {
        return n;
    }
    rim_refusal(room, words, rim(room, words, face))
}

// The volume that the side adds: a front side reverses the points.
pub fn side_volume(room: &[usize; 10], words: &[u32], reals: &[f64], shell: u32, face: usize) -> f64
    requires fit { Fit room.now words.now reals.now }
    requires face_value { face_whole room.now words.now face ≡ true }
    requires face_value_2 { side_number room.now words.now shell face ≡ 0 }
    ensures { result ≡ side_volume (decode room.now words.now reals.now) (record { shell = shell; face = face }) }
{
    let back = is_at(words_of(room, words, FACES, face), AT_FACE_FRONT, shell);
    polygon_volume(room, words, reals, rim(room, words, face), back)
}
