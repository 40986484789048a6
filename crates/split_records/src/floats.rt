// The floats of the new edge and the new vertex.
ghost use Rattle.std.specs.Prelude.{◌≡◌, ◌<◌, ◌≤◌, length};
ghost use Rattle.memory_layout.specs.Names.{EDGES, VERTICES};
ghost use Rattle.memory_layout.specs.Layout.{word, reals_needed};
ghost use Rattle.memory_layout.specs.Fit.{Small};
ghost use Rattle.split_pieces.specs.Pieces.{floats_put};

use float_vectors::vector::Point3;
use memory_layout::names::{EDGES, VERTICES};
use memory_writes::put::put_reals;

// The new edge's tolerance, then the new vertex's point and tolerance.
pub fn put_floats(
    room: &[usize; 10],
    reals: &mut [f64],
    edge: usize,
    vertex: usize,
    p: Point3,
    t: f64,
)
    requires small { Small room.now }
    requires room_in_bounds { (reals_needed room.now ≤ length reals.old) × (edge < word room.now EDGES) × (vertex < word room.now VERTICES) }
    ensures { reals.new ≡ floats_put room.now edge vertex p t reals.old }
{
    let own = [t];
    put_reals(room, reals, EDGES, edge, &own);
    let place = [p.x, p.y, p.z, t];
    put_reals(room, reals, VERTICES, vertex, &place);
}
