// The new vertex's point, and the floats of the new records.
ghost use Rattle.std.specs.Prelude.{◌≡◌, ◌<◌};
ghost use Rattle.meaning.specs.Split.{split_point};
ghost use Rattle.memory_layout.specs.Names.{EDGES, FLOAT_EDGE_TOLERANCE};
ghost use Rattle.memory_layout.specs.Layout.{word, real, reals_of};
ghost use Rattle.memory_layout.specs.Decode.{decode};
ghost use Rattle.memory_layout.specs.Fit.{Fit};
ghost use Rattle.split_bounds.specs.Ends.{ends_refusal};
ghost use Rattle.split_edge.specs.After.{reals_split};
ghost use Rattle.split_edge.specs.Facts.{Open};

use float_vectors::vector::Point3;
use memory_layout::layout::reals_of;
use memory_layout::names::{EDGES, FLOAT_EDGE_TOLERANCE, VERTICES};
use split_bounds::ends::segment_at;
use split_place::cut_of;
use split_records::floats::put_floats;

// The point on the edge's line at the parameter lo + (hi - lo)·fraction.
fn split_point(
    room: &[usize; 10],
    words: &[u32],
    reals: &[f64],
    edge: usize,
    fraction: f64,
) -> Point3
    requires fit { Fit room.now words.now reals.now }
    requires edge_value { ends_refusal (decode room.now words.now reals.now) edge ≡ 0 }
    ensures { result ≡ split_point (decode room.now words.now reals.now) edge fraction }
{
    let segment = segment_at(room, words, reals, edge);
    let cut = cut_of(segment, fraction, 0.0);
    cut.at
}

// The edge's own tolerance, whatever its tag says.
fn own_float(room: &[usize; 10], words: &[u32], reals: &[f64], edge: usize) -> f64
    requires fit { Fit room.now words.now reals.now }
    requires edge_bound { edge < word words.now EDGES }
    ensures { result ≡ real (reals_of room.now reals.now EDGES edge) FLOAT_EDGE_TOLERANCE }
{
    let x = reals_of(room, reals, EDGES, edge);
    x[FLOAT_EDGE_TOLERANCE]
}

// The floats of the new edge and vertex.
pub fn write_floats(
    room: &[usize; 10],
    words: &[u32],
    reals: &mut [f64],
    edge: usize,
    fraction: f64,
)
    requires { Open room.now words.now reals.old edge }
    ensures { reals.new ≡ reals_split room.now words.now reals.old edge fraction }
{
    let p = split_point(room, words, &reals[..], edge, fraction);
    let t = own_float(room, words, &reals[..], edge);
    let new_edge = words[EDGES] as usize;
    let vertex = words[VERTICES] as usize;
    put_floats(room, reals, new_edge, vertex, p, t);
}
