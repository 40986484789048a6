// Inner: are all faces of a body planes, and all its edges straight (`require_polyhedral` of inquire.rs)? A repeated id gives the same number
// again, so what a walk lists is tested where it is listed, without a list or marks of first meetings: no call holds an array.
#![tactic(auto)]

pub mod carriers;
pub mod listed;
pub mod rims;

ghost use Rattle.std.specs.Prelude.{◌≡◌};
ghost use Rattle.meaning.specs.Inquire.{require_polyhedral};
ghost use Rattle.memory_layout.specs.Decode.{decode};
ghost use Rattle.memory_layout.specs.Readable.{readable};
ghost use Rattle.memory_layout.specs.Fit.{Fit};
ghost use Rattle.walk_answers.specs.Decoded.{refused_by};

use crate::listed::{FLAT, STRAIGHT, THERE, WIRES, regions_refusal};
use memory_layout::names::BODY_REGIONS;
use memory_lists::list;
use memory_readable::readable;
use split_segment::refusals::then;
use walk_paths::body_followed;

// The refusal's number, or 0: the walk of faces, the faces, the walk of edges, the edges.
fn require_polyhedral(room: &[usize; 10], words: &[u32], reals: &[f64], body: usize) -> u32
    requires { Fit room.now words.now reals.now }
    ensures { result ≡ require_polyhedral (decode room.now words.now reals.now) body }
{
    if !body_followed(room, words, body) {
        return 2;
    }
    let regions = list(room, words, BODY_REGIONS, body);
    let flat = regions_refusal(room, words, reals, FLAT, regions);
    let there = regions_refusal(room, words, reals, THERE, regions);
    let straight = regions_refusal(room, words, reals, STRAIGHT, regions);
    let wires = regions_refusal(room, words, reals, WIRES, regions);
    then(flat, then(there, then(straight, wires)))
}

// 9, 8 for short marks, then that number.
pub fn polyhedral_refusal(
    room: &[usize; 10],
    words: &[u32],
    reals: &[f64],
    enough: bool,
    body: usize,
) -> u32
    ensures { result ≡ refused_by (readable room.now words.now reals.now) enough (require_polyhedral (decode room.now words.now reals.now) body) }
{
    if !readable(room, words, reals) {
        return 9;
    }
    if !enough {
        return 8;
    }
    require_polyhedral(room, words, reals, body)
}
