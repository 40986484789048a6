// Inner: points held against curves and surfaces, what is found of it logged (`point_on_surface` and parts of `fin_geometry` of
// gensolid-check's lib.rs). `notes` says what a refusal and a sign lead to.
#![tactic(auto)]

pub mod notes;

ghost use Rattle.std.specs.Prelude.{◌≤◌, ◌<◌};
ghost use Rattle.meaning.specs.Faults.{about};
ghost use Rattle.check_reasons.specs.Log.{class_at, Noted, Enough};
ghost use Rattle.check_points.specs.Points.{curve_findings, surface_findings, sample_findings, samples_findings};

use crate::notes::{geometry_error, log_code, note_off_curve, sample_at, surface_code};
use check_reasons::{EDGE, Tally};
use float_vectors::vector::Point3;
use geom_carriers::Carrier;
use geom_lines_planes::refusal::Refusal;
use geom_queries::{distance_to_surface, eval_curve, project_to_curve};
use geom_signs::offsets::off_curve;

// The vertex v at p against the curve of the edge e, with the tolerances of both.
pub fn curve_test(
    nums: &mut [u32],
    t: Tally,
    curve: Option<Carrier>,
    p: Point3,
    vertex: f64,
    edge: f64,
    e: u32,
    v: u32,
) -> Tally
    requires { Enough t (curve_findings curve p vertex edge e v) }
    ensures { Noted (curve_findings curve p vertex edge e v) nums.old t nums.new result }
{
    match project_to_curve(curve, p) {
        Err(refusal) => geometry_error(nums, t, refusal.number(), EDGE, e),
        Ok(near) => { note_off_curve(nums, t, off_curve(p, near.point, vertex, edge), v) }
    }
}

// Reason n where p is off the surface.
pub fn point_on_surface(
    nums: &mut [u32],
    t: Tally,
    surface: Option<Carrier>,
    p: Point3,
    tolerance: f64,
    n: u32,
    asked: u32,
    id: u32,
) -> Tally
    requires n_nonzero { (0 < n) × (n ≤ 26) × (asked < 8) }
    requires enough { Enough t (surface_findings surface p tolerance n (about (class_at asked) id)) }
    ensures { Noted (surface_findings surface p tolerance n (about (class_at asked) id)) nums.old t nums.new result }
{
    let code = surface_code(distance_to_surface(surface, p), tolerance, n);
    log_code(nums, t, code, asked, id)
}

// The point of the edge e at a parameter against the face's surface.
fn sample_test(
    nums: &mut [u32],
    t: Tally,
    curve: Option<Carrier>,
    surface: Option<Carrier>,
    tolerance: f64,
    at: f64,
    e: u32,
) -> Tally
    requires { Enough t (sample_findings curve surface tolerance e at) }
    ensures { Noted (sample_findings curve surface tolerance e at) nums.old t nums.new result }
{
    match eval_curve(curve, at) {
        Err(refusal) => geometry_error(nums, t, refusal.number(), EDGE, e),
        Ok(p) => point_on_surface(nums, t, surface, p, tolerance, 24, EDGE, e),
    }
}

// n samples of the edge e between two parameters.
pub fn sample_tests(
    nums: &mut [u32],
    t: Tally,
    curve: Option<Carrier>,
    surface: Option<Carrier>,
    tolerance: f64,
    t0: f64,
    t1: f64,
    n: u32,
    e: u32,
) -> Tally
    requires n_bound { n ≤ 255 }
    requires enough { Enough t (samples_findings curve surface tolerance e t0 t1 n) }
    ensures { Noted (samples_findings curve surface tolerance e t0 t1 n) nums.old t nums.new result }
{
    let mut tally = t;
    for k in 0..n {
        let at = sample_at(t0, t1, n, k + 1);
        tally = sample_test(nums, tally, curve, surface, tolerance, at, e);
    }
    tally
}
