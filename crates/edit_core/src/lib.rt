// Inner: the core of every insert and edit, fields and floats of one record, by its table (model.rs, `RawEditor`).
// `specs/Answers.antt` says what they answer and leave.
#![tactic(auto)]

ghost use Rattle.std.specs.Prelude.{◌≡◌, ◌<◌};
ghost use Rattle.edit_core.specs.Answers.{insert_number, insert_answer, insert_words, insert_reals, edit_number, edit_words, edit_reals};
ghost use Rattle.edit_core.specs.Facts.{Fields};

use memory_readable::readable;
use memory_writes::put::{put_new, put_reals, put_words};

// The new record's id, or the refusal's number.
#[derive(Clone, Copy)]
pub enum Inserted {
    At(u32),
    Refused(u32),
}

// Why no record is inserted into table k, else 0.
fn insert_refusal(room: &[usize; 10], words: &[u32], reals: &[f64], ok: bool, k: usize) -> u32
    requires { k < 10 }
    ensures { result ≡ insert_number room.now words.now reals.now ok k }
{
    if !readable(room, words, reals) {
        return 9;
    }
    if !ok {
        return 1;
    }
    if room[k] <= words[k] as usize {
        return 8;
    }
    0
}

// One record more in table k, with empty lists.
pub fn insert(
    room: &[usize; 10],
    words: &mut [u32],
    reals: &mut [f64],
    ok: bool,
    k: usize,
    fields: &[u32],
    floats: &[f64],
) -> Inserted
    requires { Fields k 0 fields.now floats.now }
    ensures answer { result ≡ insert_answer room.now words.old reals.old ok k }
    ensures tables { words.new ≡ insert_words room.now words.old reals.old ok k fields.now }
    ensures floats { reals.new ≡ insert_reals room.now words.old reals.old ok k floats.now }
{
    let n = insert_refusal(room, &words[..], &reals[..], ok, k);
    if n != 0 {
        return Inserted::Refused(n);
    }
    let used = words[k];
    put_new(room, words, k, used as usize, fields);
    put_reals(room, reals, k, used as usize, floats);
    words[k] = used + 1;
    Inserted::At(used)
}

// Why record i of table k is not edited, else 0.
fn edit_refusal(
    room: &[usize; 10],
    words: &[u32],
    reals: &[f64],
    ok: bool,
    k: usize,
    i: usize,
) -> u32
    requires { k < 10 }
    ensures { result ≡ edit_number room.now words.now reals.now ok k i }
{
    if !readable(room, words, reals) {
        return 9;
    }
    if !ok {
        return 1;
    }
    if words[k] as usize <= i {
        return 2;
    }
    0
}

// Other fields from place p on, and other floats, in record i of table k: 0, or the refusal's number.
pub fn edit(
    room: &[usize; 10],
    words: &mut [u32],
    reals: &mut [f64],
    ok: bool,
    k: usize,
    i: usize,
    p: usize,
    fields: &[u32],
    floats: &[f64],
) -> u32
    requires { Fields k p fields.now floats.now }
    ensures answer { result ≡ edit_number room.now words.old reals.old ok k i }
    ensures tables { words.new ≡ edit_words room.now words.old reals.old ok k i p fields.now }
    ensures floats { reals.new ≡ edit_reals room.now words.old reals.old ok k i floats.now }
{
    let n = edit_refusal(room, &words[..], &reals[..], ok, k, i);
    if n != 0 {
        return n;
    }
    put_words(room, words, k, i, p, fields);
    put_reals(room, reals, k, i, floats);
    0
}
