// For callers: carriers (store.rs). A table answers one or none; what is no line or no plane gives 7.
#![tactic(auto)]

ghost use Rattle.std.specs.Prelude.{◌≡◌};
ghost use Rattle.geom_carriers.specs.Queries.{line_answer, plane_answer};

use geom_lines_planes::curve::Line;
use geom_lines_planes::refusal::Refusal;
use geom_lines_planes::surface::Plane;

#[derive(Clone, Copy)]
pub enum Carrier {
    Line(Line),
    Plane(Plane),
    Other,
}

// 2 where there is no curve, 7 where it is no line.
#[tactic(auto, unfolding(crate::specs::Queries::line_answer, crate::specs::Queries::line_refusal, crate::specs::Queries::the_line))]
pub fn line_of(curve: Option<Carrier>) -> Result<Line, Refusal>
    ensures { result ≡ line_answer curve }
{
    match curve.ok_or(Refusal::NotFound)? {
        Carrier::Line(line) => Ok(line),
        Carrier::Plane(_) | Carrier::Other => Err(Refusal::Unresolved),
    }
}

// 2 where there is no surface, 7 where it is no plane.
#[tactic(auto, unfolding(crate::specs::Queries::plane_answer, crate::specs::Queries::plane_refusal, crate::specs::Queries::the_plane))]
pub fn plane_of(surface: Option<Carrier>) -> Result<Plane, Refusal>
    ensures { result ≡ plane_answer surface }
{
    match surface.ok_or(Refusal::NotFound)? {
        Carrier::Plane(plane) => Ok(plane),
        Carrier::Line(_) | Carrier::Other => Err(Refusal::Unresolved),
    }
}
