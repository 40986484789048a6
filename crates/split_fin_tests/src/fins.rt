// Test 11 of the fins of an edge, in list order. A fin's words are owner, edge, sense, pcurve mark.
ghost use Rattle.std.specs.Prelude.{◌≡◌, []};
ghost use Rattle.memory_layout.specs.Fit.{Fit};
ghost use Rattle.split_fins.specs.Facts.{Present};
ghost use Rattle.split_fin_tests.specs.FinTests.{fin_test, once_each};

use crate::faces::{Cut, face_refusal};
use memory_layout::names::LOOP_FINS;
use memory_lists::list;
use split_fins::{face_of, one_if, owner_of, use_refusal};

// Test 11. The label is where the first refusal goes.
pub fn fins_refusal(
    room: &[usize; 10],
    words: &[u32],
    reals: &[f64],
    fins: &[u32],
    edge: usize,
    cut: Cut,
) -> u32
    requires fit { Fit room.now words.now reals.now }
    requires present { Present words.now fins.now }
    ensures { result ≡ once_each (fin_test room.now words.now reals.now edge cut) [] fins.now }
{
    let mut n = 0;
    'fins: for (k, fin) in fins.iter().enumerate() {
        n = use_refusal(room, words, fins, k, edge);
        if n != 0 {
            break 'fins;
        }
        let owner = owner_of(room, words, *fin as usize);
        let entries = list(room, words, LOOP_FINS, owner);
        let mut times: usize = 0;
        for entry in entries {
            times += one_if(*fin == *entry);
            if 1 < times {
                n = 1;
                break 'fins;
            }
        }
        if times != 1 {
            n = 1;
            break 'fins;
        }
        n = face_refusal(room, words, reals, face_of(room, words, owner), cut);
        if n != 0 {
            break 'fins;
        }
    }
    n
}
