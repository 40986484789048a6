// The wire edges of the shells: test 12, and their part of test 13.
ghost use Rattle.std.specs.Prelude.{◌≡◌, ◌<◌};
ghost use Rattle.meaning.specs.Lists.{count, all_below};
ghost use Rattle.memory_layout.specs.Names.{SHELLS};
ghost use Rattle.memory_layout.specs.Layout.{word};
ghost use Rattle.memory_layout.specs.Fit.{Lists};
ghost use Rattle.split_place.specs.Place.{wire_test};

use memory_layout::names::{SHELL_WIRES, SHELLS};
use memory_lists::list;
use split_fins::one_if;

// How often x is an entry.
pub fn count_of(s: &[u32], x: usize) -> usize
    ensures { result ≡ count x s.now }
{
    let mut n: usize = 0;
    for id in s {
        n += one_if(x == *id as usize);
    }
    n
}

// One shell: whether it has room for the new wire edge, or else whether it lists the edge at most once.
pub fn wires_ok(room: &[usize; 10], words: &[u32], edge: usize, fit: bool, shell: usize) -> bool
    requires lists { Lists room.now words.now }
    requires shell_bound { shell < word words.now SHELLS }
    ensures { result ≡ wire_test room.now words.now edge fit shell }
{
    let wires = list(room, words, SHELL_WIRES, shell);
    let times = count_of(wires, edge);
    if fit {
        return wires.len() + times <= 256;
    }
    times <= 1
}

// Every shell of the table.
pub fn shells_ok(room: &[usize; 10], words: &[u32], edge: usize, fit: bool) -> bool
    requires { Lists room.now words.now }
    ensures { result ≡ all_below (wire_test room.now words.now edge fit) (word words.now SHELLS) }
{
    let shells = words[SHELLS] as usize;
    let mut ok = true;
    for s in 0..shells {
        ok = ok & wires_ok(room, words, edge, fit, s);
    }
    ok
}
