// Inner: the ends of an edge as optional ids, the parameter of a vertex on its curve, and the rule of rings (parts of `fin_geometry` of
// gensolid-check's lib.rs). `sides` and `refs` hold optional ids against others.
#![tactic(auto)]

pub mod refs;
pub mod sides;

ghost use Rattle.std.specs.Prelude.{◌≡◌, not, List, ℕ};
ghost use Rattle.meaning.specs.Lists.{is_some};
ghost use Rattle.meaning.specs.Faults.{skipped, only_if, no_line, no_plane};
ghost use Rattle.memory_layout.specs.Decode.{decode};
ghost use Rattle.memory_layout.specs.Fit.{Sized};
ghost use Rattle.check_reasons.specs.Log.{Noted, Enough};
ghost use Rattle.check_ends.specs.Ends.{ref_of, param_at, ringed};

use check_reasons::{Tally, skip};
use geom_carriers::Carrier;
use geom_queries::project_to_curve;
use memory_layout::names::VERTICES;
use memory_reads::vertex_at;
use memory_records::records::Edge;

// The parameter of a vertex on the curve, where it exists and projected.
pub fn parameter_at(
    room: &[usize; 10],
    words: &[u32],
    reals: &[f64],
    curve: Option<Carrier>,
    v: u32,
) -> Option<f64>
    requires { Sized room.now words.now reals.now }
    ensures { result ≡ param_at (decode room.now words.now reals.now) curve v }
{
    if words[VERTICES] <= v {
        return None;
    }
    match project_to_curve(curve, vertex_at(room, words, reals, v as usize).point) {
        Err(_) => None,
        Ok(near) => Some(near.param),
    }
}

// A curve that is there and no line.
fn no_line(found: Option<Carrier>) -> bool
    ensures { result ≡ no_line found }
{
    match found {
        None => false,
        Some(carrier) => match carrier {
            Carrier::Line(_) => false,
            Carrier::Plane(_) => true,
            Carrier::Other => true,
        },
    }
}

// A surface that is there and no plane.
fn no_plane(found: Option<Carrier>) -> bool
    ensures { result ≡ no_plane found }
{
    match found {
        None => false,
        Some(carrier) => match carrier {
            Carrier::Line(_) => true,
            Carrier::Plane(_) => false,
            Carrier::Other => true,
        },
    }
}

pub fn is_none(end: Option<u32>) -> bool
    ensures { result ≡ not (is_some (ref_of end)) }
{
    match end {
        None => true,
        Some(_) => false,
    }
}

// A check not made, where an edge has neither end and its curve is no line or the surface no plane.
pub fn ring(t: Tally, curve: Option<Carrier>, surface: Option<Carrier>, edge: Edge) -> Tally
    requires { Enough t (only_if (ringed curve surface (ref_of edge.start) (ref_of edge.end)) skipped) }
    ensures { (d : List ℕ) → Noted (only_if (ringed curve surface (ref_of edge.start) (ref_of edge.end)) skipped) d t d result }
{
    let start = edge.start;
    let end = edge.end;
    let other = is_none(start) & is_none(end) & (no_line(curve) | no_plane(surface));
    if other {
        return skip(t);
    }
    t
}
