// Whether the faces of an edge hold it: test 11 from the face on.
ghost use Rattle.std.specs.Prelude.{◌≡◌, ◌<◌};
ghost use Rattle.meaning.specs.Split.{within};
ghost use Rattle.memory_layout.specs.Layout.{word};
ghost use Rattle.memory_layout.specs.Fit.{Sized};
ghost use Rattle.split_fin_tests.specs.FaceTests.{on_planes, plane_test, face_test};

use float_vectors::vector::Point3;
use geom_carriers::{Carrier, plane_of};
use geom_lines_planes::surface::Plane;
use geom_signs::offsets::off_plane;
use interval_arithmetic::Sign;
use memory_layout::layout::words_of;
use memory_layout::names::{AT_FACE_SURFACE, AT_FACE_SURFACE_ID, FACES};
use memory_reads::carriers::surface_found;
use split_segment::refusals::{then, unless};

// The points at lo, hi and the split parameter, and the edge's tolerance.
#[derive(Clone, Copy)]
pub struct Cut {
    pub lo: Point3,
    pub hi: Point3,
    pub at: Point3,
    pub tolerance: f64,
}

// Further off than the tolerance 1, unresolved 7.
pub fn within(sign: Sign) -> u32
    ensures { result ≡ within sign }
{
    match sign {
        Sign::Negative => 0,
        Sign::Zero => 0,
        Sign::Positive => 1,
        Sign::Unresolved => 7,
    }
}

fn on_planes(plane: Plane, cut: Cut) -> u32
    ensures { result ≡ on_planes plane cut }
{
    let lo = within(off_plane(plane, cut.lo, cut.tolerance));
    let hi = within(off_plane(plane, cut.hi, cut.tolerance));
    let at = within(off_plane(plane, cut.at, cut.tolerance));
    then(lo, then(hi, at))
}

#[tactic(auto, unfolding(geom_carriers::specs::Queries::plane_answer, crate::specs::FaceTests::plane_test))]
fn plane_refusal(surface: Option<Carrier>, cut: Cut) -> u32
    ensures { result ≡ plane_test surface cut }
{
    match plane_of(surface) {
        Err(refusal) => refusal.number(),
        Ok(plane) => on_planes(plane, cut),
    }
}

// A face's words 4 and 5 are its surface's tag and id.
pub fn face_refusal(room: &[usize; 10], words: &[u32], reals: &[f64], face: usize, cut: Cut) -> u32
    requires { Sized room.now words.now reals.now }
    ensures { result ≡ face_test room.now words.now reals.now cut face }
{
    if words[FACES] as usize <= face {
        return 2;
    }
    let w = words_of(room, words, FACES, face);
    let plane = plane_refusal(
        surface_found(room, words, reals, w[AT_FACE_SURFACE_ID] as usize),
        cut,
    );
    then(unless(1, w[AT_FACE_SURFACE] != 0), plane)
}
