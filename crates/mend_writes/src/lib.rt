// Inner: the changes of a mending (W-208), stored among the words of the tables. `specs/Made.antt` says what they leave, `Facts.antt` what is asked of them;
// what they do to the model is said in `mend_effects`.
#![tactic(auto)]

ghost use Rattle.std.specs.Prelude.{◌≡◌, ◌+◌, ◌≤◌, ◌<◌, List, length};
ghost use Rattle.meaning_mends.specs.Mends.{Change};
ghost use Rattle.meaning_mends.specs.Words.{changes_words};
ghost use Rattle.memory_layout.specs.Layout.{words_needed};
ghost use Rattle.memory_layout.specs.Fit.{Small};
ghost use Rattle.mend_writes.specs.Made.{made_words};
ghost use Rattle.mend_writes.specs.Facts.{Stored, Appliable};
ghost use Rattle.mend_writes.specs.Laws.{fin_put, entry_made};

use memory_layout::layout::word_at;
use memory_layout::names::AT_EDGE_FINS;

// The field of a change that is another parent; the other field is a fin more.
const PARENT: u32 = 0;

// A fin at a place of the list of fins that begins at `at`, behind those before it.
fn enlist(words: &mut [u32], at: usize, place: u32, fin: u32)
    requires { (at + 8 < length words.old) × (place < 8) }
    ensures { words.new ≡ fin_put words.old at place fin }
{
    words[at + 1 + place as usize] = fin;
    words[at] = place + 1;
}

// One change by its six words: another parent, or a fin more.
fn apply_change(room: &[usize; 10], words: &mut [u32], change: &[u32])
    requires small { Small room.now }
    requires room_in_bounds { words_needed room.now ≤ length words.old }
    requires stored { Stored room.now change.now }
    ensures { words.new ≡ entry_made room.now words.old change.now }
{
    let at = word_at(room, change[0] as usize, change[1] as usize);
    if change[2] == PARENT {
        words[at] = change[5];
        return;
    }
    enlist(words, at + AT_EDGE_FINS, change[3], change[5]);
}

// The changes of a list, six words each, one after the other.
pub fn apply(room: &[usize; 10], words: &mut [u32], list: &[u32])
    requires { Appliable room.now words.old list.now }
    ensures { (l : List Change) → list.now ≡ changes_words l → words.new ≡ made_words room.now words.old l }
{
    let n = list.len() / 6;
    for i in 0..n {
        let at = 6 * i;
        let end = at + 6;
        apply_change(room, words, &list[at..end]);
    }
}
