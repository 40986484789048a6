// For callers: `make`, an empty model (model.rs, `Model::new`) of a version (W-211). `specs/Answers.antt` says what it answers and leaves.
//
// The family edit_: how a model is made and changed by hand. Call edit_make, edit_inserts, edit_sets; lists are edited by an office (office_bodies). Read edit_core, the core of every
// insert and edit, then edit_tags and edit_fields, a record's fields as words and floats, then those; edit_effects says what they do to the model.
#![tactic(auto)]

ghost use Rattle.std.specs.Prelude.{◌≡◌};
ghost use Rattle.edit_make.specs.Answers.{make_number, make_words, make_reals};

use memory_layout::names::PRECISION;
use memory_readable::lent_ok;
use memory_record_test::allowed::{precision_ok, version_ok};
use memory_writes::write::write_words;

// Why no model is made, else 0.
fn make_refusal(
    room: &[usize; 10],
    words: &[u32],
    reals: &[f64],
    precision: f64,
    version: u32,
) -> u32
    ensures { result ≡ make_number room.now words.now reals.now precision version }
{
    if !lent_ok(room, words, reals) {
        return 9;
    }
    if !(precision_ok(precision) & version_ok(version)) {
        return 1;
    }
    0
}

// An empty model with its precision and its version: 0, or the refusal's number.
pub fn make(
    room: &[usize; 10],
    words: &mut [u32],
    reals: &mut [f64],
    precision: f64,
    version: u32,
) -> u32
    ensures answer { result ≡ make_number room.now words.old reals.old precision version }
    ensures tables { words.new ≡ make_words room.now words.old reals.old precision version }
    ensures floats { reals.new ≡ make_reals room.now words.old reals.old precision version }
{
    let n = make_refusal(room, &words[..], &reals[..], precision, version);
    if n != 0 {
        return n;
    }
    let head = [0, 0, 0, 0, 0, 0, 0, 0, 0, 0, version];
    write_words(words, 0, &head);
    reals[PRECISION] = precision;
    0
}
