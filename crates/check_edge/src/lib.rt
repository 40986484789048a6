// Inner: an edge's two ends and its samples, held against its curve and a face's surface (parts of `fin_geometry` of gensolid-check's lib.rs).
#![tactic(auto)]

ghost use Rattle.std.specs.Prelude.{◌≡◌, ◌≤◌};
ghost use Rattle.meaning.specs.Lists.{listed, joined};
ghost use Rattle.memory_layout.specs.Decode.{decode};
ghost use Rattle.memory_layout.specs.Fit.{Sized};
ghost use Rattle.check_reasons.specs.Log.{Noted, Enough};
ghost use Rattle.check_ends.specs.Ends.{ref_of};
ghost use Rattle.check_edge.specs.Edge.{end_at, end_findings, param_of, between, ends_findings, samples_between, rim_findings};

use check_ends::{parameter_at, ring};
use check_points::{curve_test, point_on_surface, sample_tests};
use check_reasons::{Tally, VERTEX, done};
use float_vectors::vector::Point3;
use geom_carriers::Carrier;
use memory_layout::names::VERTICES;
use memory_reads::vertex_at;
use memory_records::records::{Edge, in_effect};

// The vertex v at p, with its own tolerance, against the curve of the edge e, then against the surface.
fn end_at(
    nums: &mut [u32],
    t: Tally,
    curve: Option<Carrier>,
    surface: Option<Carrier>,
    p: Point3,
    own: f64,
    tol: f64,
    e: u32,
    v: u32,
) -> Tally
    requires { Enough t (end_at curve surface p own tol e v) }
    ensures { Noted (end_at curve surface p own tol e v) nums.old t nums.new result }
{
    let a = curve_test(nums, t, curve, p, own, tol, e, v);
    point_on_surface(nums, a, surface, p, own, 23, VERTEX, v)
}

// The same of a vertex by its id; a missing one is passed over.
fn end_test(
    room: &[usize; 10],
    words: &[u32],
    reals: &[f64],
    nums: &mut [u32],
    t: Tally,
    curve: Option<Carrier>,
    surface: Option<Carrier>,
    tol: f64,
    e: u32,
    v: u32,
) -> Tally
    requires sized { Sized room.now words.now reals.now }
    requires enough { Enough t (end_findings (decode room.now words.now reals.now) curve surface tol e v) }
    ensures { Noted (end_findings (decode room.now words.now reals.now) curve surface tol e v) nums.old t nums.new result }
{
    if done(t) {
        return t;
    }
    if words[VERTICES] <= v {
        return t;
    }
    let vertex = vertex_at(room, words, reals, v as usize);
    let local = vertex.tolerance;
    let own = in_effect(words, reals, local);
    end_at(nums, t, curve, surface, vertex.point, own, tol, e, v)
}

// The same of an end; none is skipped.
fn end_of(
    room: &[usize; 10],
    words: &[u32],
    reals: &[f64],
    nums: &mut [u32],
    t: Tally,
    curve: Option<Carrier>,
    surface: Option<Carrier>,
    tol: f64,
    e: u32,
    end: Option<u32>,
) -> Tally
    requires sized { Sized room.now words.now reals.now }
    requires enough { Enough t (joined (end_findings (decode room.now words.now reals.now) curve surface tol e) (listed (ref_of end))) }
    ensures { Noted (joined (end_findings (decode room.now words.now reals.now) curve surface tol e) (listed (ref_of end))) nums.old t nums.new result }
{
    match end {
        None => t,
        Some(v) => end_test(room, words, reals, nums, t, curve, surface, tol, e, v),
    }
}

// Both ends, start then end.
fn ends(
    room: &[usize; 10],
    words: &[u32],
    reals: &[f64],
    nums: &mut [u32],
    t: Tally,
    curve: Option<Carrier>,
    surface: Option<Carrier>,
    tol: f64,
    e: u32,
    edge: Edge,
) -> Tally
    requires sized { Sized room.now words.now reals.now }
    requires enough { Enough t (ends_findings (decode room.now words.now reals.now) curve surface tol e (ref_of edge.start) (ref_of edge.end)) }
    ensures { Noted (ends_findings (decode room.now words.now reals.now) curve surface tol e (ref_of edge.start) (ref_of edge.end)) nums.old t nums.new result }
{
    let start = edge.start;
    let end = edge.end;
    let a = end_of(room, words, reals, nums, t, curve, surface, tol, e, start);
    end_of(room, words, reals, nums, a, curve, surface, tol, e, end)
}

fn parameter(
    room: &[usize; 10],
    words: &[u32],
    reals: &[f64],
    curve: Option<Carrier>,
    end: Option<u32>,
) -> Option<f64>
    requires { Sized room.now words.now reals.now }
    ensures { result ≡ param_of (decode room.now words.now reals.now) curve (ref_of end) }
{
    match end {
        None => None,
        Some(v) => parameter_at(room, words, reals, curve, v),
    }
}

// The samples of the edge e, only if both ends projected.
fn samples_between(
    nums: &mut [u32],
    t: Tally,
    curve: Option<Carrier>,
    surface: Option<Carrier>,
    tol: f64,
    n: u32,
    e: u32,
    start: Option<f64>,
    end: Option<f64>,
) -> Tally
    requires n_bound { n ≤ 255 }
    requires enough { Enough t (between curve surface tol n e start end) }
    ensures { Noted (between curve surface tol n e start end) nums.old t nums.new result }
{
    match start {
        None => t,
        Some(t0) => match end {
            None => t,
            Some(t1) => sample_tests(nums, t, curve, surface, tol, t0, t1, n, e),
        },
    }
}

fn samples(
    room: &[usize; 10],
    words: &[u32],
    reals: &[f64],
    nums: &mut [u32],
    t: Tally,
    curve: Option<Carrier>,
    surface: Option<Carrier>,
    tol: f64,
    n: u32,
    e: u32,
    edge: Edge,
) -> Tally
    requires sized { Sized room.now words.now reals.now }
    requires n_bound { n ≤ 255 }
    requires enough { Enough t (samples_between (decode room.now words.now reals.now) curve surface tol n e (ref_of edge.start) (ref_of edge.end)) }
    ensures { Noted (samples_between (decode room.now words.now reals.now) curve surface tol n e (ref_of edge.start) (ref_of edge.end)) nums.old t nums.new result }
{
    if done(t) {
        return t;
    }
    let start = edge.start;
    let end = edge.end;
    let t0 = parameter(room, words, reals, curve, start);
    let t1 = parameter(room, words, reals, curve, end);
    samples_between(nums, t, curve, surface, tol, n, e, t0, t1)
}

// The edge e on its curve and the face's surface: its ends, then n samples, then the rule of rings.
pub fn rim(
    room: &[usize; 10],
    words: &[u32],
    reals: &[f64],
    nums: &mut [u32],
    t: Tally,
    curve: Option<Carrier>,
    surface: Option<Carrier>,
    tol: f64,
    n: u32,
    e: u32,
    edge: Edge,
) -> Tally
    requires sized { Sized room.now words.now reals.now }
    requires n_bound { n ≤ 255 }
    requires enough { Enough t (rim_findings (decode room.now words.now reals.now) curve surface tol n e (ref_of edge.start) (ref_of edge.end)) }
    ensures { Noted (rim_findings (decode room.now words.now reals.now) curve surface tol n e (ref_of edge.start) (ref_of edge.end)) nums.old t nums.new result }
{
    let a = ends(room, words, reals, nums, t, curve, surface, tol, e, edge);
    let b = samples(room, words, reals, nums, a, curve, surface, tol, n, e, edge);
    ring(b, curve, surface, edge)
}
