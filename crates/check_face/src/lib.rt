// Inner: what is found of a face (`face` of gensolid-check's lib.rs).
#![tactic(auto)]

ghost use Rattle.std.specs.Prelude.{◌≤◌, ◌<◌};
ghost use Rattle.meaning.specs.Lists.{joined};
ghost use Rattle.meaning.specs.Faults.{loop_findings, face_findings};
ghost use Rattle.memory_layout.specs.Names.{FACES};
ghost use Rattle.memory_layout.specs.Layout.{word};
ghost use Rattle.memory_layout.specs.Decode.{decode};
ghost use Rattle.memory_layout.specs.Fit.{Fit};
ghost use Rattle.check_reasons.specs.Log.{Noted, Enough};
ghost use Rattle.check_loop.specs.Loop.{options};
ghost use Rattle.check_face.specs.Face.{inside_findings};

use check_ends::is_none;
use check_ends::sides::{checked_from, is_shell};
use check_loop::loop_;
use check_reasons::{FACE, SHELL, Tally, done, note, note_if};
use memory_layout::names::{FACE_LOOPS, FACES};
use memory_lists::list;
use memory_reads::face_at;

// The loops that the face f lists.
fn all_loops(
    room: &[usize; 10],
    words: &[u32],
    reals: &[f64],
    nums: &mut [u32],
    t: Tally,
    geometry: bool,
    n: u32,
    f: u32,
    loops: &[u32],
) -> Tally
    requires fit { Fit room.now words.now reals.now }
    requires n_bound { (n ≤ 255) × (f < word words.now FACES) }
    requires enough { Enough t (joined (loop_findings (decode room.now words.now reals.now) (options geometry n) f) loops.now) }
    ensures { Noted (joined (loop_findings (decode room.now words.now reals.now) (options geometry n) f) loops.now) nums.old t nums.new result }
{
    let mut tally = t;
    for l in loops {
        tally = loop_(room, words, reals, nums, tally, geometry, n, f, *l);
    }
    tally
}

// The surface of the face f, and its loops.
fn face_inside(
    room: &[usize; 10],
    words: &[u32],
    reals: &[f64],
    nums: &mut [u32],
    t: Tally,
    geometry: bool,
    n: u32,
    f: u32,
) -> Tally
    requires fit { Fit room.now words.now reals.now }
    requires n_bound { (n ≤ 255) × (f < word words.now FACES) }
    requires enough { Enough t (inside_findings (decode room.now words.now reals.now) (options geometry n) f) }
    ensures { Noted (inside_findings (decode room.now words.now reals.now) (options geometry n) f) nums.old t nums.new result }
{
    let face = face_at(room, words, f as usize);
    let surface = face.surface;
    let bare = is_none(surface);
    let a = note_if(nums, t, bare, 9, FACE, f);
    let loops = list(room, words, FACE_LOOPS, f as usize);
    all_loops(room, words, reals, nums, a, geometry, n, f, loops)
}

// The shell s lists the face f.
pub fn face(
    room: &[usize; 10],
    words: &[u32],
    reals: &[f64],
    nums: &mut [u32],
    t: Tally,
    geometry: bool,
    n: u32,
    s: u32,
    f: u32,
) -> Tally
    requires fit { Fit room.now words.now reals.now }
    requires n_bound { n ≤ 255 }
    requires enough { Enough t (face_findings (decode room.now words.now reals.now) (options geometry n) s f) }
    ensures { Noted (face_findings (decode room.now words.now reals.now) (options geometry n) s f) nums.old t nums.new result }
{
    if done(t) {
        return t;
    }
    if words[FACES] <= f {
        return note(nums, t, 7, SHELL, s);
    }
    let face = face_at(room, words, f as usize);
    let front = face.front;
    let back = face.back;
    let sided = is_shell(front, s) | is_shell(back, s);
    let a = note_if(nums, t, !sided, 8, FACE, f);
    if !checked_from(front, s) {
        return a;
    }
    face_inside(room, words, reals, nums, a, geometry, n, f)
}
