// Inner: `list_entry`, an entry of one of the eight lists, and `entry_refusal`, whatever the office; callers ask `office_bodies`. Besides, the lists as views of the lent words, which ask for what
// `readable` has tested.
#![tactic(auto)]

ghost use Rattle.std.specs.Prelude.{◌≡◌, ◌<◌, ◌≤◌};
ghost use Rattle.memory_layout.specs.Layout.{word};
ghost use Rattle.memory_layout.specs.Decode.{list_at};
ghost use Rattle.memory_layout.specs.Entries.{list_tables, list_places, list_limits, list_of, entry_refusal, entry_answer};
ghost use Rattle.memory_layout.specs.Fit.{Held, Lists};

use memory_layout::entries::Entry;
use memory_layout::layout::words_of;
use memory_layout::names::{
    AT_BODY_REGIONS, AT_EDGE_FINS, AT_FACE_LOOPS, AT_LOOP_FINS, AT_REGION_SHELLS, AT_SHELL_ACORNS,
    AT_SHELL_FACES, AT_SHELL_WIRES, BODIES, EDGES, FACES, LOOPS, REGIONS, SHELLS,
};
use memory_readable::readable;

const TABLES: [usize; 8] = [BODIES, REGIONS, SHELLS, SHELLS, SHELLS, FACES, LOOPS, EDGES];

const PLACES: [usize; 8] = [
    AT_BODY_REGIONS,
    AT_REGION_SHELLS,
    AT_SHELL_FACES,
    AT_SHELL_WIRES,
    AT_SHELL_ACORNS,
    AT_FACE_LOOPS,
    AT_LOOP_FINS,
    AT_EDGE_FINS,
];

const LIMITS: [usize; 8] = [16, 16, 512, 256, 64, 16, 1024, 8];

// The table whose records have the list, where in the record it stands, and how long it may be.
pub fn list_table(j: usize) -> usize
    requires { j < 8 }
    ensures { result ≡ word list_tables j }
{
    TABLES[j]
}

pub fn list_place(j: usize) -> usize
    requires { j < 8 }
    ensures { result ≡ word list_places j }
{
    PLACES[j]
}

pub fn list_limit(j: usize) -> usize
    requires { j < 8 }
    ensures { result ≡ word list_limits j }
{
    LIMITS[j]
}

// The list at a place of a record: its length, then its entries.
fn list_at(w: &[u32], at: usize) -> &[u32]
    requires { Held w.now at }
    ensures { result.now ≡ list_at w.now at }
{
    let n = w[at] as usize;
    let from = at + 1;
    let end = from + n;
    &w[from..end]
}

// List j of record i.
pub fn list<'a>(room: &[usize; 10], words: &'a [u32], j: usize, i: usize) -> &'a [u32]
    requires lists { Lists room.now words.now }
    requires j_bound { (j < 8) × (i < word words.now (word list_tables j)) }
    ensures { result.now ≡ list_of room.now words.now j i }
{
    list_at(words_of(room, words, TABLES[j], i), PLACES[j])
}

// Why there is no entry at a place of list j of record i, else 0: 9; 1 for a list that there is none of; 2 for a missing record;
// 1 for a place that is not there.
pub fn entry_refusal(
    room: &[usize; 10],
    words: &[u32],
    reals: &[f64],
    j: usize,
    i: usize,
    place: usize,
) -> u32
    ensures { result ≡ entry_refusal room.now words.now reals.now j i place }
{
    if !readable(room, words, reals) {
        return 9;
    }
    if 8 <= j {
        return 1;
    }
    if words[TABLES[j]] as usize <= i {
        return 2;
    }
    if list(room, words, j, i).len() <= place {
        return 1;
    }
    0
}

// The entry at a place of list j of record i.
pub fn list_entry(
    room: &[usize; 10],
    words: &[u32],
    reals: &[f64],
    j: usize,
    i: usize,
    place: usize,
) -> Entry
    ensures { result ≡ entry_answer room.now words.now reals.now j i place }
{
    let n = entry_refusal(room, words, reals, j, i, place);
    if n != 0 {
        return Entry::Refused(n);
    }
    Entry::Is(list(room, words, j, i)[place])
}
