// One list of every record of a table.
ghost use Rattle.std.specs.Prelude.{◌≡◌, ◌<◌, cond, length};
ghost use Rattle.memory_layout.specs.Layout.{word, words_needed, words_of};
ghost use Rattle.memory_layout.specs.Fit.{Small, Inside};
ghost use Rattle.memory_writes.specs.Put.{put_words};
ghost use Rattle.split_lists.specs.Beside.{entries_for, doubled};
ghost use Rattle.split_lists.specs.BesideFacts.{Olds, Longer};
ghost use Rattle.split_lists.specs.Pass.{put_all, doubled_at};
ghost use Rattle.split_lists.specs.Facts.{Roomy};

use crate::beside::double;
use memory_layout::layout::{word_at, word_stride};

// The list at a place of record i of table k.
fn double_list(
    room: &[usize; 10],
    words: &mut [u32],
    k: usize,
    place: usize,
    i: usize,
    olds: &[u32],
    owners: &[u32],
    senses: &[u32],
    owner: u32,
    first: u32,
)
    requires small { Small room.now }
    requires inside { Inside (words_needed room.now) (length words.old) room.now k i }
    requires olds { Olds olds.now owners.now senses.now first }
    requires longer { Longer (words_of room.now words.old k i) place (entries_for olds.now owners.now senses.now owner first) }
    ensures { words.new ≡ put_words room.now k i (doubled (entries_for olds.now owners.now senses.now owner first) place (words_of room.now words.old k i)) words.old }
{
    let at = word_at(room, k, i);
    let end = at + word_stride(k);
    double(
        &mut words[at..end],
        place,
        olds,
        owners,
        senses,
        owner,
        first,
    );
}

// Whose list it is: record i's own, or everyone's.
fn owner_if(own: bool, i: usize) -> u32
    requires { i < 4096 }
    ensures { result ≡ cond own i 0 }
{
    if own {
        return i as u32;
    }
    0
}

// The list at a place of the first n records of table k.
pub fn double_lists(
    room: &[usize; 10],
    words: &mut [u32],
    k: usize,
    place: usize,
    n: usize,
    olds: &[u32],
    owners: &[u32],
    senses: &[u32],
    own: bool,
    first: u32,
)
    requires small { Small room.now }
    requires olds { Olds olds.now owners.now senses.now first }
    requires roomy { Roomy room.now words.old k place n olds.now owners.now senses.now own first }
    ensures { words.new ≡ put_all room.now k 0 (doubled_at room.now words.old k place olds.now owners.now senses.now own first) n words.old }
{
    for i in 0..n {
        double_list(
            room,
            words,
            k,
            place,
            i,
            olds,
            owners,
            senses,
            owner_if(own, i),
            first,
        );
    }
}
