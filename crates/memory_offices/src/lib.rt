// Inner: what an office sees of the bodies (W-206). `body_for` reads any memory: the calls behind it test 9 themselves, and look at no id before that.
#![tactic(auto)]

ghost use Rattle.std.specs.Prelude.{◌≡◌, ℕ, List, Float};
ghost use Rattle.meaning.specs.Offices.{office_number, body_for};
ghost use Rattle.memory_layout.specs.Layout.{word};
ghost use Rattle.memory_layout.specs.Decode.{office_of, decode};

use memory_layout::layout::body_at;
use memory_layout::names::{AT_BODY_OFFICE, BODIES};

// A word, 0 where none is lent.
fn word_in(words: &[u32], at: usize) -> u32
    ensures { result ≡ word words.now at }
{
    if at < words.len() {
        return words[at];
    }
    0
}

// The number of the office that a tag names.
fn office_of(tag: u32) -> u32
    ensures { result ≡ office_number (office_of tag) }
{
    if tag == 0 {
        return 0;
    }
    1
}

// The body that an id is for an office; for the other's body the id behind the last, which names none.
pub fn body_for(words: &[u32], office: u32, body: usize) -> usize
    ensures { (room : List ℕ) (x : List Float) → result ≡ body_for (decode room words.now x) office body }
{
    let used = word_in(words, BODIES) as usize;
    if used <= body {
        return body;
    }
    let tag = word_in(words, body_at(body) + AT_BODY_OFFICE);
    if office_of(tag) == office {
        return body;
    }
    used
}
