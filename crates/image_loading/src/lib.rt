// Inner: the records of an accepted image laid over the lent memory (W-202). `specs/Laid.antt` says what stands in it then. Other crates call `load`.
#![tactic(auto)]

pub mod parts;

ghost use Rattle.std.specs.Prelude.{◌≡◌, suc, ◌+◌, ◌≤◌, ◌<◌, length, drop};
ghost use Rattle.memory_layout.specs.Layout.{words_needed, reals_needed, words_of};
ghost use Rattle.memory_layout.specs.Fit.{Small, Inside};
ghost use Rattle.memory_writes.specs.Put.{put_words, put_reals};
ghost use Rattle.image_format.specs.Fields.{fields_in};
ghost use Rattle.image_format.specs.Image.{count_in, table_bytes};
ghost use Rattle.image_record_test.specs.Good.{record_size};
ghost use Rattle.image_loading.specs.Laid.{record_laid, records_laid, floats_laid, words_laid, reals_laid};
ghost use Rattle.image_loading.specs.Facts.{Lies, Loadable};
ghost use Rattle.image_loading.specs.Steps.{Stands, tables_laid, table_floats_laid};

use crate::parts::{load_floats, load_words};
use image_bytes::{get_floats, get_words, word_in};
use memory_layout::layout::{real_at, real_stride, word_at, word_stride};

// The words of the record that begins at a place of the image, laid where record i of table k lies, and where it ends in the image; and its floats.
fn lay_words(
    room: &[usize; 10],
    words: &mut [u32],
    k: usize,
    i: usize,
    bytes: &[u8],
    at: usize,
) -> usize
    requires small { Small room.now }
    requires inside { Inside (words_needed room.now) (length words.old) room.now k i }
    requires lies { Lies k (drop at bytes.now) }
    requires at_in_bounds { at ≤ length bytes.now }
    ensures words_after { words.new ≡ put_words room.now k i (record_laid k (fields_in k (drop at bytes.now)) (words_of room.now words.old k i)) words.old }
    ensures value { result ≡ at + record_size k (drop at bytes.now) }
{
    let from = word_at(room, k, i);
    let end = from + word_stride(k);
    load_words(k, bytes, at, &mut words[from..end])
}

fn lay_floats(room: &[usize; 10], reals: &mut [f64], k: usize, i: usize, bytes: &[u8], at: usize)
    requires small { Small room.now }
    requires inside { Inside (reals_needed room.now) (length reals.old) room.now k i }
    requires lies { Lies k (drop at bytes.now) }
    requires at_in_bounds { at ≤ length bytes.now }
    ensures { reals.new ≡ put_reals room.now k i (fields_in k (drop at bytes.now)).floats reals.old }
{
    let from = real_at(room, k, i);
    let end = from + real_stride(k);
    load_floats(k, bytes, at, &mut reals[from..end]);
}

// The records of table k, which begin at a place, and where they end.
fn load_table(
    room: &[usize; 10],
    words: &mut [u32],
    reals: &mut [f64],
    k: usize,
    bytes: &[u8],
    at: usize,
) -> usize
    requires loadable { Loadable room.now words.old reals.old bytes.now }
    requires k_bound { k < 10 }
    requires stands { Stands (table_bytes bytes.now k) bytes.now at }
    ensures words_after { words.new ≡ records_laid room.now bytes.now k (count_in bytes.now k) words.old }
    ensures reals_after { reals.new ≡ floats_laid room.now bytes.now k (count_in bytes.now k) reals.old }
    ensures stands_2 { Stands (table_bytes bytes.now (suc k)) bytes.now result }
{
    let n = word_in(bytes, 2 + 4 * k) as usize;
    let mut here = at;
    for i in 0..n {
        lay_floats(room, reals, k, i, bytes, here);
        here = lay_words(room, words, k, i, bytes, here);
    }
    here
}

// All tables: the first begins behind the precision's record, which takes 50 bytes.
fn load_tables(room: &[usize; 10], words: &mut [u32], reals: &mut [f64], bytes: &[u8])
    requires { Loadable room.now words.old reals.old bytes.now }
    ensures words_after { words.new ≡ tables_laid room.now bytes.now 10 words.old }
    ensures reals_after { reals.new ≡ table_floats_laid room.now bytes.now 10 reals.old }
{
    let mut at = 50;
    for k in 0..10 {
        at = load_table(room, words, reals, k, bytes, at);
    }
}

// The model of an image that was found good, and that the lent memory has room for.
pub fn load(room: &[usize; 10], words: &mut [u32], reals: &mut [f64], bytes: &[u8])
    requires { Loadable room.now words.old reals.old bytes.now }
    ensures words_after { words.new ≡ words_laid room.now bytes.now 10 words.old }
    ensures reals_after { reals.new ≡ reals_laid room.now bytes.now 10 reals.old }
{
    get_words(bytes, 2, &mut words[..10]);
    get_floats(bytes, 42, &mut reals[..1]);
    load_tables(room, words, reals, bytes);
}
