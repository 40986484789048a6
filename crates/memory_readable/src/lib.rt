// For callers: `readable`, the test of refusal 9, and `lent_ok`. The capacities, the lent memory and the used counts agree, and every used record passes its own test.
// Inner: `unknown_tag`; the functions that test a part, which ask that the parts before it passed; and `words_row` and `reals_row`, a record among its table's own words and floats.
#![tactic(auto)]

ghost use Rattle.std.specs.Prelude.{◌≡◌, ◌+◌, ◌*◌, ◌<◌, ◌≤◌, length};
ghost use Rattle.memory_layout.specs.Readable.{room_ok, counts_ok, table_ok, tables_ok, lent_ok, sized_ok, readable, tag_number};
ghost use Rattle.memory_layout.specs.Fit.{Sized};
ghost use Rattle.memory_layout.specs.TableRows.{row, TableRows, rows_ok};

use memory_layout::layout::{
    real_at, real_stride, reals_needed, word_at, word_stride, words_needed,
};
use memory_layout::names::{PRECISION, VERSION};
use memory_record_test::allowed::{precision_ok, version_ok};
use memory_record_test::record_ok;

// 01's largest tables.
const LARGEST: [usize; 10] = [64, 128, 128, 512, 512, 4096, 2048, 2048, 2048, 512];

// The i-th part of n words, and of n floats.
pub fn words_row(w: &[u32], n: usize, i: usize) -> &[u32]
    requires { n * i + n ≤ length w.now }
    ensures { result.now ≡ row w.now n i }
{
    let at = n * i;
    let end = at + n;
    &w[at..end]
}

pub fn reals_row(x: &[f64], n: usize, i: usize) -> &[f64]
    requires { n * i + n ≤ length x.now }
    ensures { result.now ≡ row x.now n i }
{
    let at = n * i;
    let end = at + n;
    &x[at..end]
}

// The n records of table k whose words and floats these are.
fn rows_ok(k: usize, n: usize, w: &[u32], x: &[f64]) -> bool
    requires { TableRows k n w.now x.now }
    ensures { result ≡ rows_ok k n w.now x.now }
{
    let words = word_stride(k);
    let reals = real_stride(k);
    let mut ok = true;
    for i in 0..n {
        ok = ok & record_ok(k, words_row(w, words, i), reals_row(x, reals, i));
    }
    ok
}

// Every used record of table k. Where the table begins is worked out once, not for each record.
fn table_ok(room: &[usize; 10], words: &[u32], reals: &[f64], k: usize) -> bool
    requires sized { Sized room.now words.now reals.now }
    requires k_bound { k < 10 }
    ensures { result ≡ table_ok room.now words.now reals.now k }
{
    let n = words[k] as usize;
    let at = word_at(room, k, 0);
    let from = real_at(room, k, 0);
    rows_ok(k, n, &words[at..], &reals[from..])
}

fn tables_ok(room: &[usize; 10], words: &[u32], reals: &[f64]) -> bool
    requires { Sized room.now words.now reals.now }
    ensures { result ≡ tables_ok room.now words.now reals.now }
{
    let mut ok = true;
    for k in 0..10 {
        ok = ok & table_ok(room, words, reals, k);
    }
    ok
}

// No capacity is above 01's largest table.
fn room_ok(room: &[usize; 10]) -> bool
    ensures { result ≡ room_ok room.now }
{
    let largest = LARGEST;
    let mut ok = true;
    for k in 0..10 {
        ok = ok & (room[k] <= largest[k]);
    }
    ok
}

// No used count is above its capacity.
fn counts_ok(room: &[usize; 10], words: &[u32]) -> bool
    requires { 10 ≤ length words.now }
    ensures { result ≡ counts_ok room.now words.now }
{
    let mut ok = true;
    for k in 0..10 {
        ok = ok & (words[k] as usize <= room[k]);
    }
    ok
}

// Do the capacities and the lent memory agree?
pub fn lent_ok(room: &[usize; 10], words: &[u32], reals: &[f64]) -> bool
    ensures { result ≡ lent_ok room.now words.now reals.now }
{
    if !room_ok(room) {
        return false;
    }
    if words.len() < words_needed(room) {
        return false;
    }
    reals_needed(room) <= reals.len()
}

// And so do the used counts?
fn sized(room: &[usize; 10], words: &[u32], reals: &[f64]) -> bool
    ensures { result ≡ sized_ok room.now words.now reals.now }
{
    if !lent_ok(room, words, reals) {
        return false;
    }
    counts_ok(room, words)
}

// The test of refusal 9.
pub fn readable(room: &[usize; 10], words: &[u32], reals: &[f64]) -> bool
    ensures { result ≡ readable room.now words.now reals.now }
{
    if !sized(room, words, reals) {
        return false;
    }
    version_ok(words[VERSION]) & precision_ok(reals[PRECISION]) & tables_ok(room, words, reals)
}

// What a call is refused with that is handed a tag that is none: 9, then 1.
pub fn unknown_tag(room: &[usize; 10], words: &[u32], reals: &[f64]) -> u32
    ensures { result ≡ tag_number room.now words.now reals.now }
{
    if !readable(room, words, reals) {
        return 9;
    }
    1
}
