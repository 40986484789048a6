// Inner: the tally of a body's sides behind all that refuses its volume, in floats or in whole numbers: what `body_volume` (inquire.rs) and W-201's stone are told from.
#![tactic(auto)]

ghost use Rattle.std.specs.Prelude.{◌≡◌, length, replicate};
ghost use Rattle.meaning.specs.Inquire.{is_solid};
ghost use Rattle.memory_layout.specs.Decode.{decode, kind_of};
ghost use Rattle.memory_layout.specs.Fit.{Fit};
ghost use Rattle.walk_paths.specs.Paths.{Edged};
ghost use Rattle.inquire_tally.specs.Tallies.{refused_tally, solid_tally, body_tally};

use inquire_polyhedral::polyhedral_refusal;
use inquire_regions::{Tally, regions_tally};
use inquire_weight::no_weight;
use memory_layout::layout::words_of;
use memory_layout::names::{AT_BODY_KIND, BODIES, BODY_REGIONS, FACES};
use memory_lists::list;
use walk_marks::clear;

// By a body's tag: is it solid?
pub fn is_solid(tag: u32) -> bool
    ensures { result ≡ is_solid (kind_of tag) }
{
    match tag {
        0 => false,
        1 => false,
        2 => false,
        3 => true,
        _ => false,
    }
}

// Of a body that is refused.
fn refused_tally(n: u32) -> Tally
    ensures { result ≡ refused_tally n }
{
    Tally {
        refused: n,
        empty: false,
        volume: 0.0,
        weight: no_weight(),
    }
}

// Of a body whose walks are not refused; not solid 6.
fn solid_tally(room: &[usize; 10], words: &[u32], reals: &[f64], whole: bool, body: usize) -> Tally
    requires fit { Fit room.now words.now reals.now }
    requires edged { Edged room.now words.now body }
    ensures { result ≡ solid_tally whole (decode room.now words.now reals.now) body }
{
    let w = words_of(room, words, BODIES, body);
    if !is_solid(w[AT_BODY_KIND]) {
        return refused_tally(6);
    }
    regions_tally(
        room,
        words,
        reals,
        whole,
        list(room, words, BODY_REGIONS, body),
    )
}

// Of any body. `faces` are seen marks.
pub fn body_tally(
    room: &[usize; 10],
    words: &[u32],
    reals: &[f64],
    whole: bool,
    body: usize,
    faces: &mut [u8],
) -> Tally
    ensures answer { result ≡ body_tally whole room.now words.now reals.now body faces.old }
    ensures faces { faces.new ≡ replicate (length faces.old) 0 }
{
    let enough = room[FACES] <= faces.len();
    clear(faces);
    let n = polyhedral_refusal(room, words, reals, enough, body);
    if n != 0 {
        return refused_tally(n);
    }
    solid_tally(room, words, reals, whole, body)
}
