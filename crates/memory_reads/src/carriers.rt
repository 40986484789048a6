// Carriers by id.
ghost use Rattle.std.specs.Prelude.{◌≡◌};
ghost use Rattle.geom_carriers.specs.Queries.{line_refusal, the_line};
ghost use Rattle.meaning.specs.Model.{curve, surface};
ghost use Rattle.memory_layout.specs.Decode.{decode};
ghost use Rattle.memory_layout.specs.Fit.{Sized};

use crate::found;
use float_vectors::vector::{Point3, Vec3};
use geom_carriers::{Carrier, line_of};
use geom_lines_planes::curve::Line;
use memory_layout::names::{CURVES, SURFACES};

// What the table of curves has under an id, and that of surfaces.
pub fn curve_found(room: &[usize; 10], words: &[u32], reals: &[f64], id: usize) -> Option<Carrier>
    requires { Sized room.now words.now reals.now }
    ensures { result ≡ curve (decode room.now words.now reals.now) id }
{
    found(room, words, reals, CURVES, id)
}

pub fn surface_found(room: &[usize; 10], words: &[u32], reals: &[f64], id: usize) -> Option<Carrier>
    requires { Sized room.now words.now reals.now }
    ensures { result ≡ surface (decode room.now words.now reals.now) id }
{
    found(room, words, reals, SURFACES, id)
}

// 2 where there is no curve, 7 where it is no line, else 0.
#[tactic(auto, unfolding(geom_carriers::specs::Queries::line_answer))]
pub fn line_refusal(curve: Option<Carrier>) -> u32
    ensures { result ≡ line_refusal curve }
{
    match line_of(curve) {
        Err(refusal) => refusal.number(),
        Ok(_) => 0,
    }
}

// The line; zeros where there is none, which nobody reads.
#[tactic(auto, unfolding(geom_carriers::specs::Queries::line_answer, geom_carriers::specs::Queries::the_line, geom_carriers::specs::Queries::line_refusal))]
pub fn the_line(curve: Option<Carrier>) -> Line
    ensures { result ≡ the_line curve }
{
    match line_of(curve) {
        Err(_) => Line {
            origin: Point3 {
                x: 0.0,
                y: 0.0,
                z: 0.0,
            },
            direction: Vec3 {
                x: 0.0,
                y: 0.0,
                z: 0.0,
            },
        },
        Ok(line) => line,
    }
}
