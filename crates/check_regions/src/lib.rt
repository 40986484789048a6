// Inner: what is found of a body's regions and shells (`shell`, `region` and the region layout of `body` of gensolid-check's lib.rs).
#![tactic(auto)]

ghost use Rattle.std.specs.Prelude.{◌≡◌, ◌&&◌, List, ◌≤◌, Float};
ghost use Rattle.meaning.specs.Lists.{joined};
ghost use Rattle.meaning.specs.Model.{has, region};
ghost use Rattle.meaning.specs.Faults.{face_findings, shell_findings, region_findings, layout};
ghost use Rattle.memory_layout.specs.Decode.{decode};
ghost use Rattle.memory_layout.specs.Fit.{Fit, Lists};
ghost use Rattle.check_reasons.specs.Log.{Noted, Enough};
ghost use Rattle.check_loop.specs.Loop.{options};

use check_face::face;
use check_reasons::{BODY, REGION, SHELL, Tally, done, note, note_if};
use memory_layout::names::{REGION_SHELLS, REGIONS, SHELL_FACES, SHELLS};
use memory_lists::list;
use memory_reads::{region_at, shell_at};

// The faces that the shell s lists.
fn all_faces(
    room: &[usize; 10],
    words: &[u32],
    reals: &[f64],
    nums: &mut [u32],
    t: Tally,
    geometry: bool,
    n: u32,
    s: u32,
    faces: &[u32],
) -> Tally
    requires fit { Fit room.now words.now reals.now }
    requires n_bound { n ≤ 255 }
    requires enough { Enough t (joined (face_findings (decode room.now words.now reals.now) (options geometry n) s) faces.now) }
    ensures { Noted (joined (face_findings (decode room.now words.now reals.now) (options geometry n) s) faces.now) nums.old t nums.new result }
{
    let mut tally = t;
    for f in faces {
        tally = face(room, words, reals, nums, tally, geometry, n, s, *f);
    }
    tally
}

// The region r lists the shell s.
fn shell(
    room: &[usize; 10],
    words: &[u32],
    reals: &[f64],
    nums: &mut [u32],
    t: Tally,
    geometry: bool,
    n: u32,
    r: u32,
    s: u32,
) -> Tally
    requires fit { Fit room.now words.now reals.now }
    requires n_bound { n ≤ 255 }
    requires enough { Enough t (shell_findings (decode room.now words.now reals.now) (options geometry n) r s) }
    ensures { Noted (shell_findings (decode room.now words.now reals.now) (options geometry n) r s) nums.old t nums.new result }
{
    if done(t) {
        return t;
    }
    if words[SHELLS] <= s {
        return note(nums, t, 5, REGION, r);
    }
    let owner = shell_at(room, words, s as usize).region;
    let a = note_if(nums, t, owner != r, 6, SHELL, s);
    let faces = list(room, words, SHELL_FACES, s as usize);
    all_faces(room, words, reals, nums, a, geometry, n, s, faces)
}

// The shells that the region r lists.
fn all_shells(
    room: &[usize; 10],
    words: &[u32],
    reals: &[f64],
    nums: &mut [u32],
    t: Tally,
    geometry: bool,
    n: u32,
    r: u32,
    shells: &[u32],
) -> Tally
    requires fit { Fit room.now words.now reals.now }
    requires n_bound { n ≤ 255 }
    requires enough { Enough t (joined (shell_findings (decode room.now words.now reals.now) (options geometry n) r) shells.now) }
    ensures { Noted (joined (shell_findings (decode room.now words.now reals.now) (options geometry n) r) shells.now) nums.old t nums.new result }
{
    let mut tally = t;
    for s in shells {
        tally = shell(room, words, reals, nums, tally, geometry, n, r, *s);
    }
    tally
}

// The body b lists the region r.
fn region(
    room: &[usize; 10],
    words: &[u32],
    reals: &[f64],
    nums: &mut [u32],
    t: Tally,
    geometry: bool,
    n: u32,
    b: u32,
    r: u32,
) -> Tally
    requires fit { Fit room.now words.now reals.now }
    requires n_bound { n ≤ 255 }
    requires enough { Enough t (region_findings (decode room.now words.now reals.now) (options geometry n) b r) }
    ensures { Noted (region_findings (decode room.now words.now reals.now) (options geometry n) b r) nums.old t nums.new result }
{
    if done(t) {
        return t;
    }
    if words[REGIONS] <= r {
        return note(nums, t, 3, BODY, b);
    }
    let owner = region_at(room, words, r as usize).body;
    let a = note_if(nums, t, owner != b, 4, REGION, r);
    let shells = list(room, words, REGION_SHELLS, r as usize);
    all_shells(room, words, reals, nums, a, geometry, n, r, shells)
}

// The regions that the body b lists.
pub fn all_regions(
    room: &[usize; 10],
    words: &[u32],
    reals: &[f64],
    nums: &mut [u32],
    t: Tally,
    geometry: bool,
    n: u32,
    b: u32,
    regions: &[u32],
) -> Tally
    requires fit { Fit room.now words.now reals.now }
    requires n_bound { n ≤ 255 }
    requires enough { Enough t (joined (region_findings (decode room.now words.now reals.now) (options geometry n) b) regions.now) }
    ensures { Noted (joined (region_findings (decode room.now words.now reals.now) (options geometry n) b) regions.now) nums.old t nums.new result }
{
    let mut tally = t;
    for r in regions {
        tally = region(room, words, reals, nums, tally, geometry, n, b, *r);
    }
    tally
}

fn is_solid_region(room: &[usize; 10], words: &[u32], r: u32) -> bool
    requires { Lists room.now words.now }
    ensures { (x : List Float) → result ≡ (has (decode room.now words.now x).regions r && (region (decode room.now words.now x) r).solid) }
{
    if words[REGIONS] <= r {
        return false;
    }
    region_at(room, words, r as usize).solid
}

// The region layout: none, or the first one solid.
pub fn region_layout(
    room: &[usize; 10],
    words: &[u32],
    reals: &[f64],
    nums: &mut [u32],
    t: Tally,
    b: u32,
    regions: &[u32],
) -> Tally
    requires fit { Fit room.now words.now reals.now }
    requires enough { Enough t (layout (decode room.now words.now reals.now) b regions.now) }
    ensures { Noted (layout (decode room.now words.now reals.now) b regions.now) nums.old t nums.new result }
{
    if regions.len() == 0 {
        return note(nums, t, 1, BODY, b);
    }
    let solid = is_solid_region(room, words, regions[0]);
    note_if(nums, t, solid, 2, BODY, b)
}
