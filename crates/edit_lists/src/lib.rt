// Inner: editing the eight lists, an entry put, appended or struck (model.rs, `RawEditor`), whatever the office; callers ask `office_bodies`. `specs/Answers.antt` says what each call
// answers and leaves. Besides, `start`, and the module `places`, which ask for what the refusals have tested.
#![tactic(auto)]

pub mod places;

ghost use Rattle.std.specs.Prelude.{◌≡◌, ◌<◌, ◌≤◌};
ghost use Rattle.memory_layout.specs.Entries.{entry_refusal};
ghost use Rattle.memory_layout.specs.Fit.{Small};
ghost use Rattle.edit_lists.specs.Answers.{list_start, put_entry_words, append_number, append_entry_words, strike_entry_words};

use crate::places::{append_at, put_at, strike_at};
use memory_layout::layout::word_at;
use memory_lists::{entry_refusal, list, list_limit, list_place, list_table};
use memory_readable::readable;

// Where list j of record i stands among the words.
fn start(room: &[usize; 10], j: usize, i: usize) -> usize
    requires small { Small room.now }
    requires j_bound { (j < 8) × (i ≤ 4096) }
    ensures { result ≡ list_start room.now j i }
{
    word_at(room, list_table(j), i) + list_place(j)
}

// Another id at a place of list j of record i: 0, or the refusal's number.
pub fn put_entry(
    room: &[usize; 10],
    words: &mut [u32],
    reals: &[f64],
    j: usize,
    i: usize,
    place: usize,
    id: u32,
) -> u32
    ensures answer { result ≡ entry_refusal room.now words.old reals.now j i place }
    ensures tables { words.new ≡ put_entry_words room.now words.old reals.now j i place id }
{
    let n = entry_refusal(room, &words[..], reals, j, i, place);
    if n != 0 {
        return n;
    }
    put_at(words, start(room, j, i), place, id);
    0
}

// Why list j of record i takes no entry more, else 0.
fn append_refusal(room: &[usize; 10], words: &[u32], reals: &[f64], j: usize, i: usize) -> u32
    ensures { result ≡ append_number room.now words.now reals.now j i }
{
    if !readable(room, words, reals) {
        return 9;
    }
    if 8 <= j {
        return 1;
    }
    if words[list_table(j)] as usize <= i {
        return 2;
    }
    if list_limit(j) <= list(room, words, j, i).len() {
        return 8;
    }
    0
}

// An entry more at the end of list j of record i: 0, or the refusal's number.
pub fn append_entry(
    room: &[usize; 10],
    words: &mut [u32],
    reals: &[f64],
    j: usize,
    i: usize,
    id: u32,
) -> u32
    ensures answer { result ≡ append_number room.now words.old reals.now j i }
    ensures tables { words.new ≡ append_entry_words room.now words.old reals.now j i id }
{
    let n = append_refusal(room, &words[..], reals, j, i);
    if n != 0 {
        return n;
    }
    append_at(words, start(room, j, i), id);
    0
}

// Without the entry at a place of list j of record i: 0, or the refusal's number.
pub fn strike_entry(
    room: &[usize; 10],
    words: &mut [u32],
    reals: &[f64],
    j: usize,
    i: usize,
    place: usize,
) -> u32
    ensures answer { result ≡ entry_refusal room.now words.old reals.now j i place }
    ensures tables { words.new ≡ strike_entry_words room.now words.old reals.now j i place }
{
    let n = entry_refusal(room, &words[..], reals, j, i, place);
    if n != 0 {
        return n;
    }
    strike_at(words, start(room, j, i), place);
    0
}
