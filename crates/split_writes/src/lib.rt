// Inner: the words of a split, written behind all its tests: the lists, the records, their counts. `specs/Written.antt` says what they
// become.
#![tactic(auto)]

ghost use Rattle.std.specs.Prelude.{◌≡◌, ◌<◌, length};
ghost use Rattle.memory_layout.specs.Names.{EDGES, EDGE_FINS};
ghost use Rattle.memory_layout.specs.Layout.{word};
ghost use Rattle.memory_layout.specs.Entries.{list_of};
ghost use Rattle.memory_layout.specs.Fit.{Lists};
ghost use Rattle.split_pieces.specs.Facts.{Slots};
ghost use Rattle.split_writes.specs.Written.{lists_put, records_put, split_put, words_split};
ghost use Rattle.split_writes.specs.Facts.{Ready, Listing};

use memory_layout::names::{AT_FIN_LOOP, AT_FIN_SENSE, EDGE_FINS};
use memory_lists::list;
use memory_writes::write::write_words;
use split_pieces::fins::{fin_words, put_fins};
use split_pieces::relist::{put_loops, put_wires};
use split_records::records::put_second;
use split_records::{put_counts, put_first, put_vertex};

// The lists of the loops and of the shells.
fn write_lists(
    room: &[usize; 10],
    words: &mut [u32],
    edge: usize,
    fins: &[u32],
    owners: &[u32],
    senses: &[u32],
)
    requires { Ready room.now words.old edge fins.now owners.now senses.now }
    ensures { words.new ≡ lists_put room.now edge fins.now owners.now senses.now words.old }
{
    put_loops(room, words, fins, owners, senses);
    put_wires(room, words, edge);
}

// The new fins, the two halves, the new vertex.
fn write_records(room: &[usize; 10], words: &mut [u32], edge: usize, owners: &[u32], senses: &[u32])
    requires slots { Slots room.now words.old (length owners.now) }
    requires edge_bound { edge < word words.old EDGES }
    requires senses_len { length senses.now ≡ length owners.now }
    ensures { words.new ≡ records_put room.now edge owners.now senses.now words.old }
{
    put_fins(room, words, owners, senses);
    put_second(room, words, edge, owners.len());
    put_first(room, words, edge);
    put_vertex(room, words, edge);
}

// All of it, for fins with the loop and the sense of each.
fn write_with(
    room: &[usize; 10],
    words: &mut [u32],
    edge: usize,
    fins: &[u32],
    owners: &[u32],
    senses: &[u32],
)
    requires { Ready room.now words.old edge fins.now owners.now senses.now }
    ensures { words.new ≡ split_put room.now edge fins.now owners.now senses.now words.old }
{
    write_lists(room, words, edge, fins, owners, senses);
    write_records(room, words, edge, owners, senses);
    put_counts(room, words, owners.len());
}

// The edge's fins.
fn copy_fins(room: &[usize; 10], words: &[u32], edge: usize, out: &mut [u32])
    requires lists { Lists room.now words.now }
    requires edge_bound { edge < word words.now EDGES }
    requires out_len { length out.old ≡ length (list_of room.now words.now EDGE_FINS edge) }
    ensures { out.new ≡ list_of room.now words.now EDGE_FINS edge }
{
    write_words(out, 0, list(room, words, EDGE_FINS, edge));
}

// The fins are read before anything is written; the three lent lists may hold anything.
fn write_read(
    room: &[usize; 10],
    words: &mut [u32],
    edge: usize,
    fins: &mut [u32],
    owners: &mut [u32],
    senses: &mut [u32],
)
    requires listing { Listing room.now words.old edge }
    requires fins_len { length fins.old ≡ length (list_of room.now words.old EDGE_FINS edge) }
    requires owners_len { length owners.old ≡ length (list_of room.now words.old EDGE_FINS edge) }
    requires senses_len { length senses.old ≡ length (list_of room.now words.old EDGE_FINS edge) }
    ensures { words.new ≡ words_split room.now words.old edge }
{
    copy_fins(room, &words[..], edge, fins);
    fin_words(room, &words[..], &fins[..], AT_FIN_LOOP, owners);
    fin_words(room, &words[..], &fins[..], AT_FIN_SENSE, senses);
    write_with(room, words, edge, &fins[..], &owners[..], &senses[..]);
}

// All words, for an edge whose fins are read first.
pub fn write_split(room: &[usize; 10], words: &mut [u32], edge: usize)
    requires { Listing room.now words.old edge }
    ensures { words.new ≡ words_split room.now words.old edge }
{
    let n = list(room, &words[..], EDGE_FINS, edge).len();
    let mut fins = [0u32; 8];
    let mut owners = [0u32; 8];
    let mut senses = [0u32; 8];
    write_read(
        room,
        words,
        edge,
        &mut fins[..n],
        &mut owners[..n],
        &mut senses[..n],
    );
}
