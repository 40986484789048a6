// Test 13: the slots of the tables and lists concerned, the new fins in one loop counted together.
ghost use Rattle.std.specs.Prelude.{◌≡◌, ◌<◌, length};
ghost use Rattle.meaning.specs.Lists.{all, count_if};
ghost use Rattle.memory_layout.specs.Layout.{word};
ghost use Rattle.memory_layout.specs.Fit.{Lists};
ghost use Rattle.split_place.specs.Place.{owned_by, loop_test, tables_test, capacity_test};
ghost use Rattle.split_place.specs.Facts.{Owned};

use crate::wires::shells_ok;
use memory_layout::names::{EDGES, FINS, LOOP_FINS, VERTICES};
use memory_lists::list;
use split_fins::{one_if, owner_of};

// How many of the fins a loop owns.
fn gain(room: &[usize; 10], words: &[u32], fins: &[u32], owner: usize) -> usize
    requires lists { Lists room.now words.now }
    requires owned { Owned room.now words.now fins.now }
    ensures { result ≡ count_if (owned_by room.now words.now owner) fins.now }
{
    let mut n: usize = 0;
    for fin in fins {
        n += one_if(owner_of(room, words, *fin as usize) == owner);
    }
    n
}

// The loop of fin k.
pub fn loop_fits(room: &[usize; 10], words: &[u32], fins: &[u32], k: usize) -> bool
    requires lists { Lists room.now words.now }
    requires owned { Owned room.now words.now fins.now }
    requires k_in_bounds { k < length fins.now }
    ensures { result ≡ loop_test room.now words.now fins.now (word fins.now k) }
{
    let owner = owner_of(room, words, fins[k] as usize);
    let entries = list(room, words, LOOP_FINS, owner);
    let more = gain(room, words, fins, owner);
    entries.len() + more <= 1024
}

fn loops_fit(room: &[usize; 10], words: &[u32], fins: &[u32]) -> bool
    requires lists { Lists room.now words.now }
    requires owned { Owned room.now words.now fins.now }
    ensures { result ≡ all (loop_test room.now words.now fins.now) fins.now }
{
    let mut ok = true;
    for k in 0..fins.len() {
        ok = ok & loop_fits(room, words, fins, k);
    }
    ok
}

// As many new fins as the edge has, one edge, one vertex; and the new edge's own list.
fn tables_fit(room: &[usize; 10], words: &[u32], fins: &[u32]) -> bool
    requires { Lists room.now words.now }
    ensures { result ≡ tables_test room.now words.now fins.now }
{
    let n = fins.len();
    (words[FINS] as usize + n <= room[FINS])
        & (words[EDGES] as usize + 1 <= room[EDGES])
        & (words[VERTICES] as usize + 1 <= room[VERTICES])
        & (n <= 8)
}

pub fn capacity_fits(room: &[usize; 10], words: &[u32], fins: &[u32], edge: usize) -> bool
    requires lists { Lists room.now words.now }
    requires owned { Owned room.now words.now fins.now }
    ensures { result ≡ capacity_test room.now words.now edge fins.now }
{
    tables_fit(room, words, fins)
        & loops_fit(room, words, fins)
        & shells_ok(room, words, edge, true)
}
