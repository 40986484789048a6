// For callers: `split_line_edge` of euler.rs by an office (W-206), the tests, then the writing, which cannot fail. `specs/After.antt` says what it answers
// and leaves. Inner: the module `point`, the floats of what is new.
#![tactic(auto)]

pub mod point;

ghost use Rattle.std.specs.Prelude.{◌≡◌};
ghost use Rattle.split_edge.specs.After.{office_split_answer, office_split_words, office_split_reals};

use crate::point::write_floats;
use memory_layout::names::{EDGES, VERTICES};
use split_tests::split_refusal;
use split_writes::write_split;
use station_answers::{EdgeSplit, Split};

// Splits a straight edge at a fraction of its range, for an office.
pub fn split_line_edge(
    room: &[usize; 10],
    words: &mut [u32],
    reals: &mut [f64],
    office: u32,
    edge: usize,
    fraction: f64,
) -> Split
    ensures answer { result ≡ office_split_answer room.now words.old reals.old office edge fraction }
    ensures tables { words.new ≡ office_split_words room.now words.old reals.old office edge fraction }
    ensures floats { reals.new ≡ office_split_reals room.now words.old reals.old office edge fraction }
{
    let n = split_refusal(room, &words[..], &reals[..], office, edge, fraction);
    if n != 0 {
        return Split::Refused(n);
    }
    let split = EdgeSplit {
        original_edge: edge as u32,
        new_edge: words[EDGES],
        vertex: words[VERTICES],
    };
    write_floats(room, &words[..], reals, edge, fraction);
    write_split(room, words, edge);
    Split::Is(split)
}
