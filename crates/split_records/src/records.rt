// The new edge. An edge's words are start tag, id, end tag, id, curve tag, id, tolerance tag, then its fins.
ghost use Rattle.std.specs.Prelude.{◌≡◌, ◌<◌, ◌≤◌, length};
ghost use Rattle.memory_layout.specs.Names.{EDGES};
ghost use Rattle.memory_layout.specs.Layout.{word};
ghost use Rattle.split_pieces.specs.Pieces.{second_put};
ghost use Rattle.split_pieces.specs.Facts.{Slots, second_room};

use memory_layout::layout::words_of;
use memory_layout::names::{
    AT_EDGE_CURVE, AT_EDGE_CURVE_ID, AT_EDGE_END, AT_EDGE_END_ID, AT_EDGE_TOLERANCE, EDGES, FINS,
    VERTICES,
};
use memory_writes::put::put_words;

// The new edge's words, with room for eight fins: it starts at the new vertex, and has the old one's end, curve and tolerance.
fn second_room(s: &[u32], vertex: u32, first: u32, n: u32) -> [u32; 16]
    requires { (length s.now ≡ 16) × (first ≤ 4096) }
    ensures { result ≡ second_room s.now vertex first n }
{
    [
        1,
        vertex,
        s[AT_EDGE_END],
        s[AT_EDGE_END_ID],
        s[AT_EDGE_CURVE],
        s[AT_EDGE_CURVE_ID],
        s[AT_EDGE_TOLERANCE],
        n,
        first,
        first + 1,
        first + 2,
        first + 3,
        first + 4,
        first + 5,
        first + 6,
        first + 7,
    ]
}

// The new edge, with n new fins.
pub fn put_second(room: &[usize; 10], words: &mut [u32], edge: usize, n: usize)
    requires slots { Slots room.now words.old n }
    requires edge_bound { edge < word words.old EDGES }
    ensures { words.new ≡ second_put room.now edge n words.old }
{
    let new = words[EDGES] as usize;
    let vertex = words[VERTICES];
    let first = words[FINS];
    let half = second_room(
        words_of(room, &words[..], EDGES, edge),
        vertex,
        first,
        n as u32,
    );
    let end = 8 + n;
    put_words(room, words, EDGES, new, 0, &half[..end]);
}
