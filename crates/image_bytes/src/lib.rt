// Inner: numbers and floats in lent bytes (W-202). `specs/Bytes.antt` of `image_format` says which bytes they are.
#![tactic(auto)]

ghost use Rattle.std.specs.Prelude.{◌≡◌, ◌+◌, ◌*◌, ◌≤◌, ◌<◌, length, drop};
ghost use Rattle.std.specs.Float.{binary64};
ghost use Rattle.std.specs.Float.Ieee.{to_bits, of_bits};
ghost use Rattle.memory_writes.specs.Put.{over};
ghost use Rattle.image_format.specs.Bytes.{little, words, floats, number, words_in, floats_in};

// A byte as a number, which its type alone does not keep below 256.
fn wide(byte: u8) -> u32
    ensures value { result ≡ byte }
    ensures upper_bound { result < 256 }
{
    byte as u32
}

// The number in the two bytes from a place on, in four, in eight.
pub fn mark_in(bytes: &[u8], at: usize) -> u32
    requires { at + 2 ≤ length bytes.now }
    ensures { result ≡ number 2 (drop at bytes.now) }
{
    let low = wide(bytes[at]);
    let high = wide(bytes[at + 1]);
    low + 256 * high
}

pub fn word_in(bytes: &[u8], at: usize) -> u32
    requires { at + 4 ≤ length bytes.now }
    ensures { result ≡ number 4 (drop at bytes.now) }
{
    let a = wide(bytes[at]);
    let b = wide(bytes[at + 1]);
    let c = wide(bytes[at + 2]);
    let d = wide(bytes[at + 3]);
    a + 256 * (b + 256 * (c + 256 * d))
}

pub fn bits_in(bytes: &[u8], at: usize) -> u64
    requires { at + 8 ≤ length bytes.now }
    ensures { result ≡ number 8 (drop at bytes.now) }
{
    let low = word_in(bytes, at) as u64;
    let high = word_in(bytes, at + 4) as u64;
    low + 4294967296 * high
}

// A float's bits, and the float of bits. A not-a-number has one pattern (`f64::to_bits` and `from_bits` are undefined there, so the code tests first).
pub fn bits_of(x: f64) -> u64
    ensures { result ≡ to_bits binary64 x }
{
    if x != x {
        return 0x7ff8000000000000;
    }
    f64::to_bits(x)
}

pub fn float_of(bits: u64) -> f64
    ensures { result ≡ of_bits binary64 bits }
{
    if bits % 0x8000000000000000 > 0x7ff0000000000000 {
        return 0.0 / 0.0;
    }
    f64::from_bits(bits)
}

// Written, from a place on.
pub fn put_mark(bytes: &mut [u8], at: usize, mark: u32)
    requires { at + 2 ≤ length bytes.old }
    ensures { bytes.new ≡ over at (little 2 mark) bytes.old }
{
    bytes[at] = (mark % 256) as u8;
    bytes[at + 1] = (mark / 256 % 256) as u8;
}

// A word is two marks, and 64 bits are two words.
fn put_word(bytes: &mut [u8], at: usize, word: u32)
    requires { at + 4 ≤ length bytes.old }
    ensures { bytes.new ≡ over at (little 4 word) bytes.old }
{
    put_mark(bytes, at, word);
    put_mark(bytes, at + 2, word / 65536);
}

fn put_bits(bytes: &mut [u8], at: usize, bits: u64)
    requires { at + 8 ≤ length bytes.old }
    ensures { bytes.new ≡ over at (little 8 bits) bytes.old }
{
    put_word(bytes, at, (bits % 4294967296) as u32);
    put_word(bytes, at + 4, (bits / 4294967296) as u32);
}

pub fn put_words(bytes: &mut [u8], at: usize, a: &[u32])
    requires { at + 4 * length a.now ≤ length bytes.old }
    ensures { bytes.new ≡ over at (words a.now) bytes.old }
{
    for (j, word) in a.iter().enumerate() {
        put_word(bytes, at + 4 * j, *word);
    }
}

pub fn put_floats(bytes: &mut [u8], at: usize, a: &[f64])
    requires { at + 8 * length a.now ≤ length bytes.old }
    ensures { bytes.new ≡ over at (floats a.now) bytes.old }
{
    for (j, float) in a.iter().enumerate() {
        put_bits(bytes, at + 8 * j, bits_of(*float));
    }
}

// Read, from a place on, as many as there is room for.
pub fn get_words(bytes: &[u8], at: usize, w: &mut [u32])
    requires { at + 4 * length w.old ≤ length bytes.now }
    ensures { w.new ≡ words_in (length w.old) (drop at bytes.now) }
{
    for (j, word) in w.iter_mut().enumerate() {
        *word = word_in(bytes, at + 4 * j);
    }
}

pub fn get_floats(bytes: &[u8], at: usize, x: &mut [f64])
    requires { at + 8 * length x.old ≤ length bytes.now }
    ensures { x.new ≡ floats_in (length x.old) (drop at bytes.now) }
{
    for (j, float) in x.iter_mut().enumerate() {
        *float = float_of(bits_in(bytes, at + 8 * j));
    }
}
