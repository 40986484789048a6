// Inner: the vertices and the edges of triangles, each numbered where it is first met, and whether an edge has too many fins (W-210). Both numberings are one search, by two tests.
#![tactic(auto)]

ghost use Rattle.std.specs.Prelude.{◌≡◌, [], ◌∷◌, map, ◌+◌, ◌*◌, ◌/◌, ◌%◌, ◌≤◌, ◌<◌, length, take, drop};
ghost use Rattle.meaning.specs.Lists.{count, all_below};
ghost use Rattle.memory_writes.specs.Put.{over};
ghost use Rattle.stl_body.specs.Read.{corner_in, stl_triangles, which_of, same_point, corners, step, same_step, edge_of};
ghost use Rattle.stl_body.specs.Flat.{steps_in, flat_points, flat_steps};
ghost use Rattle.stl_numbers.specs.Numbered.{Numbered, unless_known, things_in, point_in, step_in, after, step_at, few, CornersRead, StepsRead};

use float_vectors::vector::Point3;
use stl_corners::{corner_in, same_point};

// An edge by its vertices' numbers.
#[derive(Clone, Copy)]
pub struct Ends {
    pub from: u32,
    pub to: u32,
}

// The k-th corner of all.
fn corner_at(bytes: &[u8], k: usize) -> Point3
    requires { 134 + 50 * (k / 3) ≤ length bytes.now }
    ensures { result ≡ corner_in (drop (96 + 50 * (k / 3) + 12 * (k % 3)) bytes.now) }
{
    corner_in(bytes, 96 + 50 * (k / 3) + 12 * (k % 3))
}

// The i-th point of a flat list.
fn point_at(points: &[f64], i: usize) -> Point3
    requires { 3 * i + 3 ≤ length points.now }
    ensures { result ≡ point_in (drop (3 * i) points.now) }
{
    Point3 {
        x: points[3 * i],
        y: points[3 * i + 1],
        z: points[3 * i + 2],
    }
}

// The place of the first equal point among those met, or how many there are.
fn point_place(points: &[f64], many: usize, p: Point3) -> usize
    requires { 3 * many ≤ length points.now }
    ensures { result ≡ which_of same_point p (things_in point_in 3 many points.now) }
{
    for i in 0..many {
        let q = point_at(points, i);
        if same_point(p, q) {
            return i;
        }
    }
    many
}

// Stored behind the others, where its place is behind them.
fn keep_point(points: &mut [f64], many: usize, at: usize, p: Point3) -> usize
    requires { 3 * many + 3 ≤ length points.old }
    ensures value { result ≡ unless_known at many many (many + 1) }
    ensures points_after { points.new ≡ unless_known at many points.old (over (3 * many) (flat_points (p ∷ [])) points.old) }
{
    if at < many {
        return many;
    }
    points[3 * many] = p.x;
    points[3 * many + 1] = p.y;
    points[3 * many + 2] = p.z;
    many + 1
}

pub fn number_corners(bytes: &[u8], n: usize, numbers: &mut [u32], points: &mut [f64]) -> usize
    requires { CornersRead bytes.now n numbers.old points.old }
    ensures { Numbered same_point flat_points (corners (stl_triangles bytes.now)) numbers.old numbers.new points.old points.new result }
{
    let mut many = 0;
    for k in 0..3 * n {
        let p = corner_at(bytes, k);
        let at = point_place(points, many, p);
        numbers[k] = at as u32;
        many = keep_point(points, many, at, p);
    }
    many
}

// The place of the next corner in the triangle.
fn after(k: usize) -> usize
    requires { k < 0x1000000 }
    ensures { result ≡ after k }
{
    if k % 3 == 2 {
        return k - 2;
    }
    k + 1
}

// From the lower number to the higher.
fn rising(u: u32, v: u32) -> Ends
    ensures { step result.from result.to ≡ edge_of (step u v) }
{
    if u <= v {
        return Ends { from: u, to: v };
    }
    Ends { from: v, to: u }
}

// The edge of the step from the k-th corner on.
fn edge_at(numbers: &[u32], k: usize) -> Ends
    requires k_bound { k < 0x1000000 }
    requires k_in_bounds { k < length numbers.now }
    requires k_in_bounds_2 { after k < length numbers.now }
    ensures { step result.from result.to ≡ edge_of (step_at numbers.now k) }
{
    let next = after(k);
    rising(numbers[k], numbers[next])
}

fn edge_place(ends: &[u32], many: usize, e: Ends) -> usize
    requires { 2 * many ≤ length ends.now }
    ensures { result ≡ which_of same_step (step e.from e.to) (things_in step_in 2 many ends.now) }
{
    for i in 0..many {
        if (e.from == ends[2 * i]) & (e.to == ends[2 * i + 1]) {
            return i;
        }
    }
    many
}

fn keep_edge(ends: &mut [u32], many: usize, at: usize, e: Ends) -> usize
    requires { 2 * many + 2 ≤ length ends.old }
    ensures value { result ≡ unless_known at many many (many + 1) }
    ensures ends_after { ends.new ≡ unless_known at many ends.old (over (2 * many) (flat_steps (step e.from e.to ∷ [])) ends.old) }
{
    if at < many {
        return many;
    }
    ends[2 * many] = e.from;
    ends[2 * many + 1] = e.to;
    many + 1
}

pub fn number_edges(numbers: &[u32], n: usize, edges: &mut [u32], ends: &mut [u32]) -> usize
    requires { StepsRead numbers.now n edges.old ends.old }
    ensures { Numbered same_step flat_steps (map edge_of (steps_in n numbers.now)) edges.old edges.new ends.old ends.new result }
{
    let mut many = 0;
    for k in 0..3 * n {
        let e = edge_at(numbers, k);
        let at = edge_place(ends, many, e);
        edges[k] = at as u32;
        many = keep_edge(ends, many, at, e);
    }
    many
}

// How many of the first fins go along an edge.
fn fins_along(edges: &[u32], fins: usize, e: usize) -> usize
    requires { fins ≤ length edges.now }
    ensures { result ≡ count e (take fins edges.now) }
{
    let mut times: usize = 0;
    for edge in &edges[..fins] {
        if e == *edge as usize {
            times += 1;
        }
    }
    times
}

// Has each of n edges at most eight fins?
pub fn edges_fit(edges: &[u32], fins: usize, n: usize) -> bool
    requires { fins ≤ length edges.now }
    ensures { result ≡ all_below (few (take fins edges.now)) n }
{
    let mut ok = true;
    for e in 0..n {
        ok = ok & (fins_along(edges, fins, e) <= 8);
    }
    ok
}
