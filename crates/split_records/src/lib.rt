// Inner: what a split writes besides the lists and the fins. Here the old edge's end, the new vertex, and how many records there are; `records` has the
// new edge, `floats` its floats and the new vertex's. `split_pieces/specs/Pieces.antt` says what each step leaves. An edge's words are start tag, id,
// end tag, id, curve tag, id, tolerance tag, then its fins.
#![tactic(auto)]

pub mod floats;
pub mod records;

ghost use Rattle.std.specs.Prelude.{◌≡◌, ◌<◌};
ghost use Rattle.memory_layout.specs.Names.{EDGES};
ghost use Rattle.memory_layout.specs.Layout.{word};
ghost use Rattle.split_pieces.specs.Pieces.{first_put, vertex_put, counts_put};
ghost use Rattle.split_pieces.specs.Facts.{Slots};

use memory_layout::layout::words_of;
use memory_layout::names::{AT_EDGE_END, AT_EDGE_TOLERANCE, EDGES, FINS, VERTICES};
use memory_writes::put::put_words;
use memory_writes::write::write_words;

// The old edge ends at the new vertex.
pub fn put_first(room: &[usize; 10], words: &mut [u32], edge: usize)
    requires slots { Slots room.now words.old 0 }
    requires edge_bound { edge < word words.old EDGES }
    ensures { words.new ≡ first_put room.now edge words.old }
{
    let end = [1, words[VERTICES]];
    put_words(room, words, EDGES, edge, AT_EDGE_END, &end);
}

// Whether the new vertex has a tolerance of its own: as the edge.
pub fn put_vertex(room: &[usize; 10], words: &mut [u32], edge: usize)
    requires slots { Slots room.now words.old 0 }
    requires edge_bound { edge < word words.old EDGES }
    ensures { words.new ≡ vertex_put room.now edge words.old }
{
    let vertex = words[VERTICES] as usize;
    let w = words_of(room, &words[..], EDGES, edge);
    let tag = [w[AT_EDGE_TOLERANCE]];
    put_words(room, words, VERTICES, vertex, 0, &tag);
}

// n fins, an edge and a vertex more.
pub fn put_counts(room: &[usize; 10], words: &mut [u32], n: usize)
    requires { Slots room.now words.old n }
    ensures { words.new ≡ counts_put n words.old }
{
    let counts = [
        words[FINS] + n as u32,
        words[EDGES] + 1,
        words[VERTICES] + 1,
    ];
    write_words(words, FINS, &counts);
}
