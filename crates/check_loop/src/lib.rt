// Inner: what is found of a loop (`loop_` of gensolid-check's lib.rs).
#![tactic(auto)]

ghost use Rattle.std.specs.Prelude.{◌≡◌, ◌≤◌, ◌<◌};
ghost use Rattle.meaning.specs.Lists.{joined};
ghost use Rattle.meaning.specs.Faults.{fin_findings, fin_geometry, loop_findings};
ghost use Rattle.memory_layout.specs.Names.{FACES};
ghost use Rattle.memory_layout.specs.Layout.{word};
ghost use Rattle.memory_layout.specs.Decode.{decode};
ghost use Rattle.memory_layout.specs.Fit.{Fit};
ghost use Rattle.check_reasons.specs.Log.{Noted, Enough};
ghost use Rattle.check_ends.specs.Ends.{ref_of};
ghost use Rattle.check_fin.specs.Fin.{fin_on};
ghost use Rattle.check_loop.specs.Loop.{options, fins_findings};

use check_fin::{fin, fin_geometry};
use check_open_loop::open_loop;
use check_reasons::{FACE, LOOP, Tally, done, note, note_if};
use memory_layout::names::{LOOP_FINS, LOOPS};
use memory_lists::list;
use memory_reads::{face_at, loop_at};

// The fins that the loop l lists.
fn all_fins(
    room: &[usize; 10],
    words: &[u32],
    reals: &[f64],
    nums: &mut [u32],
    t: Tally,
    l: u32,
    fins: &[u32],
) -> Tally
    requires fit { Fit room.now words.now reals.now }
    requires enough { Enough t (joined (fin_findings (decode room.now words.now reals.now) l) fins.now) }
    ensures { Noted (joined (fin_findings (decode room.now words.now reals.now) l) fins.now) nums.old t nums.new result }
{
    let mut tally = t;
    for id in fins {
        tally = fin(room, words, reals, nums, tally, l, *id);
    }
    tally
}

// Their geometry, on a face with that surface.
fn all_geometry(
    room: &[usize; 10],
    words: &[u32],
    reals: &[f64],
    nums: &mut [u32],
    t: Tally,
    n: u32,
    surface: Option<u32>,
    fins: &[u32],
) -> Tally
    requires fit { Fit room.now words.now reals.now }
    requires n_bound { n ≤ 255 }
    requires enough { Enough t (joined (fin_on (decode room.now words.now reals.now) n (ref_of surface)) fins.now) }
    ensures { Noted (joined (fin_on (decode room.now words.now reals.now) n (ref_of surface)) fins.now) nums.old t nums.new result }
{
    let mut tally = t;
    for id in fins {
        tally = fin_geometry(room, words, reals, nums, tally, n, surface, *id);
    }
    tally
}

// Their geometry, on the face f.
fn loop_geometry(
    room: &[usize; 10],
    words: &[u32],
    reals: &[f64],
    nums: &mut [u32],
    t: Tally,
    n: u32,
    f: u32,
    fins: &[u32],
) -> Tally
    requires fit { Fit room.now words.now reals.now }
    requires n_bound { (n ≤ 255) × (f < word words.now FACES) }
    requires enough { Enough t (joined (fin_geometry (decode room.now words.now reals.now) n f) fins.now) }
    ensures { Noted (joined (fin_geometry (decode room.now words.now reals.now) n f) fins.now) nums.old t nums.new result }
{
    let face = face_at(room, words, f as usize);
    let surface = face.surface;
    all_geometry(room, words, reals, nums, t, n, surface, fins)
}

// The fins of the loop l: each by itself, each against the next, then the geometry of each.
fn loop_fins(
    room: &[usize; 10],
    words: &[u32],
    reals: &[f64],
    nums: &mut [u32],
    t: Tally,
    geometry: bool,
    n: u32,
    f: u32,
    l: u32,
    fins: &[u32],
) -> Tally
    requires fit { Fit room.now words.now reals.now }
    requires n_bound { (n ≤ 255) × (f < word words.now FACES) }
    requires enough { Enough t (fins_findings (decode room.now words.now reals.now) (options geometry n) f l fins.now) }
    ensures { Noted (fins_findings (decode room.now words.now reals.now) (options geometry n) f l fins.now) nums.old t nums.new result }
{
    if fins.len() == 0 {
        return note(nums, t, 12, LOOP, l);
    }
    let a = all_fins(room, words, reals, nums, t, l, fins);
    let b = open_loop(room, words, reals, nums, a, fins);
    if !geometry {
        return b;
    }
    loop_geometry(room, words, reals, nums, b, n, f, fins)
}

// The face f lists the loop l.
pub fn loop_(
    room: &[usize; 10],
    words: &[u32],
    reals: &[f64],
    nums: &mut [u32],
    t: Tally,
    geometry: bool,
    n: u32,
    f: u32,
    l: u32,
) -> Tally
    requires fit { Fit room.now words.now reals.now }
    requires n_bound { (n ≤ 255) × (f < word words.now FACES) }
    requires enough { Enough t (loop_findings (decode room.now words.now reals.now) (options geometry n) f l) }
    ensures { Noted (loop_findings (decode room.now words.now reals.now) (options geometry n) f l) nums.old t nums.new result }
{
    if done(t) {
        return t;
    }
    if words[LOOPS] <= l {
        return note(nums, t, 10, FACE, f);
    }
    let owner = loop_at(room, words, l as usize).face;
    let a = note_if(nums, t, owner != f, 11, LOOP, l);
    let fins = list(room, words, LOOP_FINS, l as usize);
    loop_fins(room, words, reals, nums, a, geometry, n, f, l, fins)
}
