// Row 11 from the face on: face missing, no surface, surface missing, not a plane, and off it at lo, hi and the split parameter.
ghost use Rattle.std.specs.Prelude.{◌≡◌};
ghost use Rattle.memory_layout.specs.Decode.{decode};
ghost use Rattle.memory_layout.specs.Fit.{Sized};
ghost use Rattle.split_stop_place.specs.FinRows.{off_told, plane_told, surface_told, face_told};

use geom_carriers::{Carrier, plane_of};
use geom_lines_planes::surface::Plane;
use geom_signs::offsets::off_plane;
use memory_layout::layout::words_of;
use memory_layout::names::{AT_FACE_SURFACE, AT_FACE_SURFACE_ID, FACES, SURFACES};
use memory_reads::carriers::surface_found;
use split_fin_tests::faces::{Cut, within};
use split_segment::refusals::unless;
use split_stop_parts::{Stop, first, stop_at};

// Parts 9 to 11, of the fin and its loop.
fn off_stop(plane: Plane, fin: usize, owner: usize, cut: Cut) -> Stop
    ensures { result ≡ off_told plane fin owner cut }
{
    let lo = within(off_plane(plane, cut.lo, cut.tolerance));
    let hi = within(off_plane(plane, cut.hi, cut.tolerance));
    let at = within(off_plane(plane, cut.at, cut.tolerance));
    first(
        stop_at(11, 9, lo, 5, fin, 4, owner),
        first(
            stop_at(11, 10, hi, 5, fin, 4, owner),
            stop_at(11, 11, at, 5, fin, 4, owner),
        ),
    )
}

// From part 8 on: what the table of surfaces has, the ids of the surface and the face.
fn plane_stop(
    found: Option<Carrier>,
    surface: usize,
    face: usize,
    fin: usize,
    owner: usize,
    cut: Cut,
) -> Stop
    ensures { result ≡ plane_told found surface face fin owner cut }
{
    match plane_of(found) {
        Err(refusal) => stop_at(11, 8, refusal.number(), 9, surface, 3, face),
        Ok(plane) => off_stop(plane, fin, owner, cut),
    }
}

// From part 7 on.
fn surface_stop(
    room: &[usize; 10],
    words: &[u32],
    reals: &[f64],
    surface: usize,
    face: usize,
    fin: usize,
    owner: usize,
    cut: Cut,
) -> Stop
    requires { Sized room.now words.now reals.now }
    ensures { result ≡ surface_told (decode room.now words.now reals.now) surface face fin owner cut }
{
    let there = unless(2, surface < words[SURFACES] as usize);
    let found = surface_found(room, words, reals, surface);
    first(
        stop_at(11, 7, there, 9, surface, 3, face),
        plane_stop(found, surface, face, fin, owner, cut),
    )
}

// From part 5 on. A face's words 4 and 5 are its surface's tag and id.
pub fn face_stop(
    room: &[usize; 10],
    words: &[u32],
    reals: &[f64],
    face: usize,
    fin: usize,
    owner: usize,
    cut: Cut,
) -> Stop
    requires { Sized room.now words.now reals.now }
    ensures { result ≡ face_told room.now words.now reals.now face fin owner cut }
{
    if words[FACES] as usize <= face {
        return stop_at(11, 5, 2, 3, face, 4, owner);
    }
    let w = words_of(room, words, FACES, face);
    let named = unless(1, w[AT_FACE_SURFACE] != 0);
    let surface = w[AT_FACE_SURFACE_ID] as usize;
    first(
        stop_at(11, 6, named, 3, face, 4, owner),
        surface_stop(room, words, reals, surface, face, fin, owner, cut),
    )
}
