// One face's surface, and one edge's curve. In both records word 4 is the carrier's tag, word 5 its id.
ghost use Rattle.std.specs.Prelude.{◌≡◌};
ghost use Rattle.geom_carriers.specs.Queries.{plane_refusal};
ghost use Rattle.meaning.specs.Inquire.{flat_face, straight_edge};
ghost use Rattle.memory_layout.specs.Decode.{decode};
ghost use Rattle.memory_layout.specs.Fit.{Fit};

use geom_carriers::{Carrier, plane_of};
use memory_layout::layout::words_of;
use memory_layout::names::{
    AT_EDGE_CURVE, AT_EDGE_CURVE_ID, AT_FACE_SURFACE, AT_FACE_SURFACE_ID, EDGES, FACES,
};
use memory_reads::carriers::{curve_found, line_refusal, surface_found};
use split_segment::refusals::{then, unless};

// 2 where there is no surface, 7 where it is no plane, else 0.
#[tactic(auto, unfolding(geom_carriers::specs::Queries::plane_answer))]
fn plane_refusal(surface: Option<Carrier>) -> u32
    ensures { result ≡ plane_refusal surface }
{
    match plane_of(surface) {
        Err(refusal) => refusal.number(),
        Ok(_) => 0,
    }
}

// The face missing 2, no surface 1, its surface missing 2, no plane 7.
pub fn flat_face(room: &[usize; 10], words: &[u32], reals: &[f64], i: usize) -> u32
    requires { Fit room.now words.now reals.now }
    ensures { result ≡ flat_face (decode room.now words.now reals.now) i }
{
    if words[FACES] as usize <= i {
        return 2;
    }
    let w = words_of(room, words, FACES, i);
    let plane = plane_refusal(surface_found(room, words, reals, w[AT_FACE_SURFACE_ID] as usize));
    then(unless(1, w[AT_FACE_SURFACE] != 0), plane)
}

// The edge missing 2, no curve 1, its curve missing 2, no line 7.
pub fn straight_edge(room: &[usize; 10], words: &[u32], reals: &[f64], i: usize) -> u32
    requires { Fit room.now words.now reals.now }
    ensures { result ≡ straight_edge (decode room.now words.now reals.now) i }
{
    if words[EDGES] as usize <= i {
        return 2;
    }
    let w = words_of(room, words, EDGES, i);
    let line = line_refusal(curve_found(room, words, reals, w[AT_EDGE_CURVE_ID] as usize));
    then(unless(1, w[AT_EDGE_CURVE] != 0), line)
}
