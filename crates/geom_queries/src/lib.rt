// For callers: the queries of store.rs about carriers. Each makes the source's tests of number and record, and then gives 7 to what is no line or
// no plane.
#![tactic(auto)]

ghost use Rattle.std.specs.Prelude.{◌≡◌};
ghost use Rattle.geom_lines_planes.specs.Geometry.{line_point, plane_distance};
ghost use Rattle.geom_queries.specs.Queries.{on_line, near_line, off_plane, projection, evaluated_answer, projected_answer, measured_answer, eval_curve, project_to_curve, distance_to_surface};

use float_vectors::vector::Point3;
use geom_carriers::{Carrier, line_of, plane_of};
use geom_lines_planes::curve::Line;
use geom_lines_planes::refusal::Refusal;
use geom_lines_planes::surface::Plane;

// The closest point of a curve, and its parameter.
#[derive(Clone, Copy)]
pub struct CurveProjection {
    pub param: f64,
    pub point: Point3,
}

fn eval_line(line: Line, t: f64) -> Result<Point3, Refusal>
    ensures { result ≡ evaluated_answer (on_line line t) (line_point line t) }
{
    let point = line.eval(t);
    if point.is_finite() {
        return Ok(point);
    }
    Err(Refusal::Degenerate)
}

// The point of a curve at t: 1 where t is not finite, then 2 or 7, then 4 where the point is not finite.
#[tactic(auto, unfolding(crate::specs::Queries::eval_curve, geom_carriers::specs::Queries::line_answer))]
pub fn eval_curve(curve: Option<Carrier>, t: f64) -> Result<Point3, Refusal>
    ensures { result ≡ eval_curve curve t }
{
    if !float_vectors::vector::is_finite(t) {
        return Err(Refusal::BadArgument);
    }
    eval_line(line_of(curve)?, t)
}

fn project_to_line(line: Line, p: Point3) -> Result<CurveProjection, Refusal>
    ensures { result ≡ projected_answer (near_line line p) (projection line p) }
{
    let param = line.closest_param(p);
    if !float_vectors::vector::is_finite(param) {
        return Err(Refusal::BadArgument);
    }
    let point = line.eval(param);
    if point.is_finite() {
        return Ok(CurveProjection { param, point });
    }
    Err(Refusal::Degenerate)
}

// The closest point on a curve: 1 where p is not finite, then 2 or 7, then as eval_curve at the nearest parameter.
#[tactic(auto, unfolding(crate::specs::Queries::project_to_curve, geom_carriers::specs::Queries::line_answer))]
pub fn project_to_curve(curve: Option<Carrier>, p: Point3) -> Result<CurveProjection, Refusal>
    ensures { result ≡ project_to_curve curve p }
{
    if !p.is_finite() {
        return Err(Refusal::BadArgument);
    }
    project_to_line(line_of(curve)?, p)
}

fn distance_to_plane(plane: Plane, p: Point3) -> Result<f64, Refusal>
    ensures { result ≡ measured_answer (off_plane plane p) (plane_distance plane p) }
{
    let distance = plane.distance(p);
    if float_vectors::vector::is_finite(distance) {
        return Ok(distance);
    }
    Err(Refusal::Degenerate)
}

// How far p lies from a surface: 1 where p is not finite, then 2 or 7, then 4 where the distance is not finite.
#[tactic(auto, unfolding(crate::specs::Queries::distance_to_surface, geom_carriers::specs::Queries::plane_answer))]
pub fn distance_to_surface(surface: Option<Carrier>, p: Point3) -> Result<f64, Refusal>
    ensures { result ≡ distance_to_surface surface p }
{
    if !p.is_finite() {
        return Err(Refusal::BadArgument);
    }
    distance_to_plane(plane_of(surface)?, p)
}
