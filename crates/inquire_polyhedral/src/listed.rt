// The first refusal among what the shells of a body list, by the test.
ghost use Rattle.std.specs.Prelude.{◌≡◌, true, ◌<◌, ltb};
ghost use Rattle.meaning.specs.Lists.{all};
ghost use Rattle.meaning.specs.Refuse.{first_of};
ghost use Rattle.memory_layout.specs.Names.{SHELLS, REGION_SHELLS};
ghost use Rattle.memory_layout.specs.Layout.{word};
ghost use Rattle.memory_layout.specs.Entries.{list_tables};
ghost use Rattle.memory_layout.specs.Fit.{Fit};
ghost use Rattle.walk_sources.specs.Sources.{followed};
ghost use Rattle.inquire_polyhedral.specs.Tested.{tested, list_by, shell_tested, region_tested};

use crate::carriers::{flat_face, straight_edge};
use crate::rims::{face_there, straight_face};
use memory_layout::names::{REGION_SHELLS, SHELL_FACES, SHELL_WIRES};
use memory_lists::list;
use split_segment::refusals::then;

// The tests: each face is flat; it, its loops and their fins exist; their edges are straight; each wire edge is.
pub const FLAT: u32 = 0;

pub const THERE: u32 = 1;

pub const STRAIGHT: u32 = 2;

pub const WIRES: u32 = 3;

// One id.
fn id_refusal(room: &[usize; 10], words: &[u32], reals: &[f64], test: u32, i: usize) -> u32
    requires { Fit room.now words.now reals.now }
    ensures { result ≡ tested room.now words.now reals.now test i }
{
    if test == FLAT {
        return flat_face(room, words, reals, i);
    }
    if test == THERE {
        return face_there(room, words, reals, i);
    }
    if test == STRAIGHT {
        return straight_face(room, words, reals, i);
    }
    straight_edge(room, words, reals, i)
}

// Among the ids.
fn ids_refusal(room: &[usize; 10], words: &[u32], reals: &[f64], test: u32, ids: &[u32]) -> u32
    requires { Fit room.now words.now reals.now }
    ensures { result ≡ first_of (tested room.now words.now reals.now test) ids.now }
{
    let mut n = 0;
    for id in ids {
        n = then(n, id_refusal(room, words, reals, test, *id as usize));
    }
    n
}

// The shell's list of what the test is about.
fn list_by(test: u32) -> usize
    ensures { (result ≡ list_by test) × (result < 8) × (word list_tables result ≡ SHELLS) }
{
    if test == WIRES {
        return SHELL_WIRES;
    }
    SHELL_FACES
}

// Among what the shells list.
fn shells_refusal(
    room: &[usize; 10],
    words: &[u32],
    reals: &[f64],
    test: u32,
    shells: &[u32],
) -> u32
    requires fit { Fit room.now words.now reals.now }
    requires shells_value { all (λ s. ltb s (word words.now SHELLS)) shells.now ≡ true }
    ensures { result ≡ first_of (shell_tested room.now words.now reals.now test) shells.now }
{
    let j = list_by(test);
    let mut n = 0;
    for shell in shells {
        let ids = list(room, words, j, *shell as usize);
        n = then(n, ids_refusal(room, words, reals, test, ids));
    }
    n
}

// Among what the regions' shells list.
pub fn regions_refusal(
    room: &[usize; 10],
    words: &[u32],
    reals: &[f64],
    test: u32,
    regions: &[u32],
) -> u32
    requires fit { Fit room.now words.now reals.now }
    requires regions_value { all (followed room.now words.now REGION_SHELLS) regions.now ≡ true }
    ensures { result ≡ first_of (region_tested room.now words.now reals.now test) regions.now }
{
    let mut n = 0;
    for region in regions {
        let shells = list(room, words, REGION_SHELLS, *region as usize);
        n = then(n, shells_refusal(room, words, reals, test, shells));
    }
    n
}
