// For callers: `split_refusal`, why an edge is not split for an office (W-206). The thirteen tests of euler.rs's `split_line_edge`, in 01's order, before anything is written.
// Inner: the rows of tests, which ask for what `readable` has tested.
#![tactic(auto)]

ghost use Rattle.std.specs.Prelude.{◌≡◌};
ghost use Rattle.meaning.specs.Split.{split_refusal};
ghost use Rattle.memory_layout.specs.Decode.{decode};
ghost use Rattle.memory_layout.specs.Fit.{Fit};
ghost use Rattle.memory_layout.specs.Limits.{limits};
ghost use Rattle.split_place.specs.SplitNumber.{edge_row, place_row, room_row, office_split_number};

use memory_layout::names::{EDGE_FINS, EDGES, PRECISION};
use memory_lists::list;
use memory_readable::readable;
use split_bounds::bounds_refusal;
use split_bounds::ends::segment_at;
use split_fin_tests::fins::fins_refusal;
use split_fins::pcurves_refusal;
use split_foreign::edge_for;
use split_place::{cut_of, edge_tolerance, fraction_ok, point_refusal};
use split_room::tables::capacity_fits;
use split_room::wires::shells_ok;
use split_segment::refusals::{then, unless};

// Tests 1 to 8.
fn edge_refusal(room: &[usize; 10], words: &[u32], reals: &[f64], edge: usize, fraction: f64) -> u32
    requires { Fit room.now words.now reals.now }
    ensures { result ≡ edge_row (decode room.now words.now reals.now) edge fraction }
{
    if !fraction_ok(fraction) {
        return 1;
    }
    if words[EDGES] as usize <= edge {
        return 2;
    }
    let pcurves = pcurves_refusal(room, words, list(room, words, EDGE_FINS, edge));
    then(pcurves, bounds_refusal(room, words, reals, edge))
}

// Tests 9 to 11, behind those.
fn place_refusal(
    room: &[usize; 10],
    words: &[u32],
    reals: &[f64],
    edge: usize,
    fraction: f64,
) -> u32
    requires fit { Fit room.now words.now reals.now }
    requires fraction_value { edge_row (decode room.now words.now reals.now) edge fraction ≡ 0 }
    ensures { result ≡ place_row (decode room.now words.now reals.now) edge fraction }
{
    let segment = segment_at(room, words, reals, edge);
    let cut = cut_of(segment, fraction, edge_tolerance(room, words, reals, edge));
    let point = point_refusal(segment, cut.at, reals[PRECISION]);
    let fins = list(room, words, EDGE_FINS, edge);
    then(point, fins_refusal(room, words, reals, fins, edge, cut))
}

// Tests 12 and 13, behind those.
fn room_refusal(room: &[usize; 10], words: &[u32], reals: &[f64], edge: usize, fraction: f64) -> u32
    requires fit { Fit room.now words.now reals.now }
    requires fraction_value { edge_row (decode room.now words.now reals.now) edge fraction ≡ 0 }
    requires fraction_value_2 { place_row (decode room.now words.now reals.now) edge fraction ≡ 0 }
    ensures { result ≡ room_row (limits room.now) (decode room.now words.now reals.now) edge }
{
    let once = shells_ok(room, words, edge, false);
    let fins = list(room, words, EDGE_FINS, edge);
    let fit = capacity_fits(room, words, fins, edge);
    then(unless(1, once), unless(8, fit))
}

// The thirteen tests, behind 9.
fn tests_refusal(
    room: &[usize; 10],
    words: &[u32],
    reals: &[f64],
    edge: usize,
    fraction: f64,
) -> u32
    requires { Fit room.now words.now reals.now }
    ensures { result ≡ split_refusal (limits room.now) (decode room.now words.now reals.now) edge fraction }
{
    let n = edge_refusal(room, words, reals, edge, fraction);
    if n != 0 {
        return n;
    }
    let n = place_refusal(room, words, reals, edge, fraction);
    if n != 0 {
        return n;
    }
    room_refusal(room, words, reals, edge, fraction)
}

// 9, then 1 for an office above 1, then the thirteen tests of what the edge is for the office: the refusal's number, or 0.
pub fn split_refusal(
    room: &[usize; 10],
    words: &[u32],
    reals: &[f64],
    office: u32,
    edge: usize,
    fraction: f64,
) -> u32
    ensures { result ≡ office_split_number room.now words.now reals.now office edge fraction }
{
    if !readable(room, words, reals) {
        return 9;
    }
    if 1 < office {
        return 1;
    }
    let own = edge_for(room, words, office, edge);
    tests_refusal(room, words, reals, own, fraction)
}
