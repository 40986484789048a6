// The floats of the edges and of the vertices.
ghost use Rattle.std.specs.Prelude.{◌≡◌, ◌+◌, ◌*◌, ◌≤◌, length};
ghost use Rattle.memory_layout.specs.Names.{EDGES, VERTICES};
ghost use Rattle.stl_rows.specs.Rows.{reals_behind, edge_floats};
ghost use Rattle.stl_rows.specs.Facts.{FloatSpace, flat_vertex_floats};

use memory_layout::names::{EDGES, VERTICES};
use memory_writes::put::put_reals;

// 0 in place of a tolerance of its own, for e edges.
pub fn lay_tolerances(room: &[usize; 10], reals: &mut [f64], first: usize, e: usize)
    requires { FloatSpace room.now reals.old EDGES first e }
    ensures { reals.new ≡ reals_behind room.now EDGES first edge_floats e reals.old }
{
    let row = [0.0];
    for k in 0..e {
        put_reals(room, reals, EDGES, first + k, &row);
    }
}

fn point_row(points: &[f64], k: usize) -> [f64; 4]
    requires { (k ≤ 4096) × (3 * k + 3 ≤ length points.now) }
    ensures { result ≡ flat_vertex_floats points.now k }
{
    [points[3 * k], points[3 * k + 1], points[3 * k + 2], 0.0]
}

// The points of v vertices.
pub fn lay_points(room: &[usize; 10], reals: &mut [f64], first: usize, points: &[f64], v: usize)
    requires float_space { FloatSpace room.now reals.old VERTICES first v }
    requires v_in_bounds { 3 * v ≤ length points.now }
    ensures { reals.new ≡ reals_behind room.now VERTICES first (flat_vertex_floats points.now) v reals.old }
{
    for k in 0..v {
        let row = point_row(points, k);
        put_reals(room, reals, VERTICES, first + k, &row);
    }
}
