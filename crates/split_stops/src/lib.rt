// For callers: `split_stop`, why a split of an edge is refused for an office: the number of `split_refusal`, and the test and the record that it is refused for. `specs/SplitStop.antt` says
// what it tells. Inner: the thirteen rows, which ask for what `readable` has tested.
#![tactic(auto)]

ghost use Rattle.std.specs.Prelude.{◌≡◌};
ghost use Rattle.meaning_stops.specs.Stops.{first_stop};
ghost use Rattle.meaning_stops.specs.Splits.{split_stops};
ghost use Rattle.memory_layout.specs.Decode.{decode};
ghost use Rattle.memory_layout.specs.Fit.{Fit};
ghost use Rattle.memory_layout.specs.Limits.{limits};
ghost use Rattle.split_stop_parts.specs.Told.{told};
ghost use Rattle.split_stops.specs.SplitStop.{lent_split_stop};

use memory_readable::readable;
use split_foreign::edge_for;
use split_stop_edge::edge_stop;
use split_stop_parts::{Stop, stop_at};
use split_stop_place::place_stop;
use split_stop_room::room_stop;

// The thirteen rows, of the edge that was asked about and what it is for the office.
fn tests_stop(
    room: &[usize; 10],
    words: &[u32],
    reals: &[f64],
    asked: usize,
    edge: usize,
    fraction: f64,
) -> Stop
    requires { Fit room.now words.now reals.now }
    ensures { result ≡ told (first_stop (split_stops (limits room.now) (decode room.now words.now reals.now) asked edge fraction)) }
{
    let own = edge_stop(room, words, reals, asked, edge, fraction);
    if own.number != 0 {
        return own;
    }
    let place = place_stop(room, words, reals, edge, fraction);
    if place.number != 0 {
        return place;
    }
    room_stop(room, words, reals, edge, fraction)
}

// 9, then 1 for an office above 1, then the thirteen rows of what the edge is for the office: the first stop, or accepted.
pub fn split_stop(
    room: &[usize; 10],
    words: &[u32],
    reals: &[f64],
    office: u32,
    edge: usize,
    fraction: f64,
) -> Stop
    ensures { result ≡ told (lent_split_stop room.now words.now reals.now office edge fraction) }
{
    if !readable(room, words, reals) {
        return stop_at(0, 0, 9, 10, 0, 10, 0);
    }
    if 1 < office {
        return stop_at(0, 1, 1, 10, 0, 10, 0);
    }
    let own = edge_for(room, words, office, edge);
    tests_stop(room, words, reals, edge, own, fraction)
}
