// For callers: `read_image`, a model from an image (W-202, W-211). `specs/Answers.antt` says what it answers and leaves; docs/IMAGE.md has the format.
#![tactic(auto)]

ghost use Rattle.std.specs.Prelude.{◌≡◌, ◌≤◌, length};
ghost use Rattle.image_reader.specs.Answers.{room_for, read_number, read_words, read_reals};

use image_accepted::version::{records_in, version_in};
use image_accepted::{accepted, count_in};
use image_loading::load;
use memory_layout::names::VERSION;
use memory_readable::lent_ok;

// Has each table a slot for every one of an image's records?
fn room_for(room: &[usize; 10], bytes: &[u8]) -> bool
    requires { 50 ≤ length bytes.now }
    ensures { result ≡ room_for room.now bytes.now }
{
    let mut ok = true;
    for (k, slots) in room.iter().enumerate() {
        ok = ok & (count_in(bytes, k) as usize <= *slots);
    }
    ok
}

// Why no model is read, else 0.
fn read_refusal(room: &[usize; 10], words: &[u32], reals: &[f64], bytes: &[u8]) -> u32
    ensures { result ≡ read_number room.now words.now reals.now bytes.now }
{
    if !lent_ok(room, words, reals) {
        return 9;
    }
    if !accepted(bytes) {
        return 9;
    }
    if !room_for(room, records_in(bytes)) {
        return 8;
    }
    0
}

// The model of an image, in place of the one that the memory holds: 0, or the refusal's number.
pub fn read_image(room: &[usize; 10], words: &mut [u32], reals: &mut [f64], bytes: &[u8]) -> u32
    ensures answer { result ≡ read_number room.now words.old reals.old bytes.now }
    ensures tables { words.new ≡ read_words room.now words.old reals.old bytes.now }
    ensures floats { reals.new ≡ read_reals room.now words.old reals.old bytes.now }
{
    let n = read_refusal(room, &words[..], &reals[..], bytes);
    if n != 0 {
        return n;
    }
    words[VERSION] = version_in(bytes);
    load(room, words, reals, records_in(bytes));
    0
}
