// For callers: `image_length`, how many bytes a model's image takes, and `write_image`, which writes it (W-202, W-211). `specs/Answers.antt` says what they answer and leave; docs/IMAGE.md has the format.
// Inner: the functions that go through the tables, which ask for what `readable` has tested.
#![tactic(auto)]

ghost use Rattle.std.specs.Prelude.{◌≡◌, ◌+◌, ◌<◌, ◌≤◌, length};
ghost use Rattle.memory_layout.specs.Decode.{decode};
ghost use Rattle.memory_layout.specs.Fit.{Fit};
ghost use Rattle.memory_writes.specs.Put.{over};
ghost use Rattle.image_format.specs.Image.{image_of};
ghost use Rattle.image_writer.specs.Answers.{length_answer, write_number, write_answer, written_bytes};
ghost use Rattle.image_writer.specs.Rows.{rows_image, rows_length, Rows, WordRows, table_length, tables_length, Used, version_bytes, image_length, precision_bytes, table_of, tables_of};

use image_bytes::{put_floats, put_mark, put_words};
use image_records::{record_length, write_record};
use memory_layout::layout::{real_at, real_stride, word_at, word_stride};
use memory_layout::names::VERSION;
use memory_readable::{readable, reals_row, words_row};

// How many bytes, or the refusal's number.
#[derive(Clone, Copy)]
pub enum Length {
    Is(usize),
    Refused(u32),
}

// The mark of the precision's record, PR, and that of the version's, VN; and how many bytes each record takes.
const PRECISION_MARK: u32 = 0x5250;

const PRECISION_LENGTH: usize = 50;

const VERSION_MARK: u32 = 0x4e56;

const VERSION_LENGTH: usize = 6;

const TABLES: usize = 10;

// ---- how long

// The n records of table k whose words these are.
fn rows_length(k: usize, n: usize, w: &[u32]) -> usize
    requires { WordRows k n w.now }
    ensures { result ≡ rows_length k w.now n }
{
    let words = word_stride(k);
    let mut long = 0;
    for i in 0..n {
        long = long + record_length(k, words_row(w, words, i));
    }
    long
}

// The used records of table k.
fn table_length(room: &[usize; 10], words: &[u32], k: usize) -> usize
    requires used { Used room.now words.now }
    requires k_bound { k < 10 }
    ensures { result ≡ table_length room.now words.now k }
{
    let n = words[k] as usize;
    let at = word_at(room, k, 0);
    rows_length(k, n, &words[at..])
}

// The precision's record, and every used record.
fn tables_length(room: &[usize; 10], words: &[u32]) -> usize
    requires { Used room.now words.now }
    ensures { result ≡ tables_length room.now words.now 10 }
{
    let mut long = PRECISION_LENGTH;
    for k in 0..TABLES {
        long = long + table_length(room, words, k);
    }
    long
}

// The version's record, which a model of version 2 has.
fn version_length(words: &[u32]) -> usize
    requires { 11 ≤ length words.now }
    ensures { result ≡ length (version_bytes words.now) }
{
    if words[VERSION] == 2 {
        return VERSION_LENGTH;
    }
    0
}

// All records.
fn whole_length(room: &[usize; 10], words: &[u32]) -> usize
    requires { Used room.now words.now }
    ensures { result ≡ image_length room.now words.now }
{
    version_length(words) + tables_length(room, words)
}

// ---- written

// The n records of table k whose words and floats these are: where they end.
fn write_rows(k: usize, n: usize, w: &[u32], x: &[f64], bytes: &mut [u8], at: usize) -> usize
    requires rows { Rows k n w.now x.now }
    requires n_in_bounds { at + length (rows_image k w.now x.now n) ≤ length bytes.old }
    ensures end { result ≡ at + length (rows_image k w.now x.now n) }
    ensures written { bytes.new ≡ over at (rows_image k w.now x.now n) bytes.old }
{
    let words = word_stride(k);
    let reals = real_stride(k);
    let mut to = at;
    for i in 0..n {
        to = write_record(k, words_row(w, words, i), reals_row(x, reals, i), bytes, to);
    }
    to
}

// The used records of table k: where they end.
fn write_table(
    room: &[usize; 10],
    words: &[u32],
    reals: &[f64],
    k: usize,
    bytes: &mut [u8],
    at: usize,
) -> usize
    requires fit { Fit room.now words.now reals.now }
    requires k_bound { k < 10 }
    requires k_in_bounds { at + length (table_of room.now words.now reals.now k) ≤ length bytes.old }
    ensures end { result ≡ at + length (table_of room.now words.now reals.now k) }
    ensures written { bytes.new ≡ over at (table_of room.now words.now reals.now k) bytes.old }
{
    let n = words[k] as usize;
    let from = word_at(room, k, 0);
    let floats = real_at(room, k, 0);
    write_rows(k, n, &words[from..], &reals[floats..], bytes, at)
}

// The version's record, of a model of version 2: a mark, the version. Where it ends.
fn write_version(words: &[u32], bytes: &mut [u8]) -> usize
    requires { (11 ≤ length words.now) × (length (version_bytes words.now) ≤ length bytes.old) }
    ensures end { result ≡ length (version_bytes words.now) }
    ensures written { bytes.new ≡ over 0 (version_bytes words.now) bytes.old }
{
    if words[VERSION] != 2 {
        return 0;
    }
    let version = [2];
    put_mark(bytes, 0, VERSION_MARK);
    put_words(bytes, 2, &version);
    VERSION_LENGTH
}

// The precision's record: a mark, the ten used counts, the precision.
fn write_precision(words: &[u32], reals: &[f64], bytes: &mut [u8], at: usize)
    requires { (10 ≤ length words.now) × (1 ≤ length reals.now) × (at + 50 ≤ length bytes.old) }
    ensures { bytes.new ≡ over at (precision_bytes words.now reals.now) bytes.old }
{
    put_mark(bytes, at, PRECISION_MARK);
    put_words(bytes, at + 2, &words[..10]);
    put_floats(bytes, at + 42, &reals[..1]);
}

// Every used record: where they end.
fn write_tables(
    room: &[usize; 10],
    words: &[u32],
    reals: &[f64],
    bytes: &mut [u8],
    at: usize,
) -> usize
    requires fit { Fit room.now words.now reals.now }
    requires reals_in_bounds { at + length (tables_of room.now words.now reals.now 10) ≤ length bytes.old }
    ensures end { result ≡ at + length (tables_of room.now words.now reals.now 10) }
    ensures written { bytes.new ≡ over at (tables_of room.now words.now reals.now 10) bytes.old }
{
    let mut to = at;
    for k in 0..TABLES {
        to = write_table(room, words, reals, k, bytes, to);
    }
    to
}

// The whole image: where it ends.
fn write_whole(room: &[usize; 10], words: &[u32], reals: &[f64], bytes: &mut [u8]) -> usize
    requires fit { Fit room.now words.now reals.now }
    requires reals_in_bounds { length (image_of (decode room.now words.now reals.now)) ≤ length bytes.old }
    ensures end { result ≡ length (image_of (decode room.now words.now reals.now)) }
    ensures written { bytes.new ≡ over 0 (image_of (decode room.now words.now reals.now)) bytes.old }
{
    let at = write_version(words, bytes);
    write_precision(words, reals, bytes, at);
    write_tables(room, words, reals, bytes, at + PRECISION_LENGTH)
}

// ---- the calls

// How many bytes the image takes.
pub fn image_length(room: &[usize; 10], words: &[u32], reals: &[f64]) -> Length
    ensures { result ≡ length_answer room.now words.now reals.now }
{
    if !readable(room, words, reals) {
        return Length::Refused(9);
    }
    Length::Is(whole_length(room, words))
}

// Why no image is written, else 0: 9, then 8 for bytes that are too short.
fn write_refusal(room: &[usize; 10], words: &[u32], reals: &[f64], bytes: &[u8]) -> u32
    ensures { result ≡ write_number room.now words.now reals.now bytes.now }
{
    if !readable(room, words, reals) {
        return 9;
    }
    if bytes.len() < whole_length(room, words) {
        return 8;
    }
    0
}

// The image into the first of the lent bytes, and how many they are. A refusal writes nothing.
pub fn write_image(room: &[usize; 10], words: &[u32], reals: &[f64], bytes: &mut [u8]) -> Length
    ensures answer { result ≡ write_answer room.now words.now reals.now bytes.old }
    ensures image { bytes.new ≡ written_bytes room.now words.now reals.now bytes.old }
{
    let n = write_refusal(room, words, reals, &bytes[..]);
    if n != 0 {
        return Length::Refused(n);
    }
    Length::Is(write_whole(room, words, reals, bytes))
}
