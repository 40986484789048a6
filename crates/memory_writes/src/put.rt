// Writing into one record.
ghost use Rattle.std.specs.Prelude.{◌≡◌, ◌+◌, ◌≤◌, length};
ghost use Rattle.memory_layout.specs.Layout.{word_strides, real_strides, word, words_needed, reals_needed, words_of};
ghost use Rattle.memory_layout.specs.Fit.{Small, Inside};
ghost use Rattle.memory_writes.specs.Put.{over, put_words, put_reals, new_words};

use crate::write::{write_new, write_reals, write_words};
use memory_layout::layout::{real_at, real_stride, word_at, word_stride};

// Other words from place p of the record on.
pub fn put_words(room: &[usize; 10], words: &mut [u32], k: usize, i: usize, p: usize, a: &[u32])
    requires small { Small room.now }
    requires inside { Inside (words_needed room.now) (length words.old) room.now k i }
    requires a_bound { p + length a.now ≤ word word_strides k }
    ensures { words.new ≡ put_words room.now k i (over p a.now (words_of room.now words.old k i)) words.old }
{
    let at = word_at(room, k, i);
    let end = at + word_stride(k);
    write_words(&mut words[at..end], p, a);
}

// A new record.
pub fn put_new(room: &[usize; 10], words: &mut [u32], k: usize, i: usize, a: &[u32])
    requires small { Small room.now }
    requires inside { Inside (words_needed room.now) (length words.old) room.now k i }
    requires a_len_bound { length a.now ≤ word word_strides k }
    ensures { words.new ≡ put_words room.now k i (new_words k a.now) words.old }
{
    let at = word_at(room, k, i);
    let end = at + word_stride(k);
    write_new(&mut words[at..end], a);
}

// The floats of a record.
pub fn put_reals(room: &[usize; 10], reals: &mut [f64], k: usize, i: usize, a: &[f64])
    requires small { Small room.now }
    requires inside { Inside (reals_needed room.now) (length reals.old) room.now k i }
    requires a_len { length a.now ≡ word real_strides k }
    ensures { reals.new ≡ put_reals room.now k i a.now reals.old }
{
    let at = real_at(room, k, i);
    let end = at + real_stride(k);
    write_reals(&mut reals[at..end], a);
}
