// The numbers and floats of a record that begins with the first of the bytes: tags that are known, and one spelling for what a model does not say.
// The places are numbers here: two bytes of mark, four for each number, eight for each float.
ghost use Rattle.std.specs.Prelude.{◌≡◌, ◌&&◌, ◌+◌, ◌≤◌, leb, length, drop};
ghost use Rattle.image_format.specs.Bytes.{number};
ghost use Rattle.image_record_test.specs.Parts.{number_at, bits_at, optional_good, marked_good, bits_good, tolerance_good, carrier_bits, vertex_good, carrier_good};

use image_bytes::{bits_in, bits_of, float_of, word_in};
use memory_record_test::allowed::tolerance_ok;

// An optional id: known, and 0 where it is none.
fn optional_good(p: &[u8], at: usize) -> bool
    requires { at + 8 ≤ length p.now }
    ensures { result ≡ optional_good (number 4 (drop at p.now)) (number 4 (drop (at + 4) p.now)) }
{
    let tag = word_in(p, at);
    (tag <= 1) & ((tag == 1) | (word_in(p, at + 4) == 0))
}

// The three optional ids that a face has, and an edge, and the tag behind them.
pub fn marked_good(p: &[u8]) -> bool
    requires { 30 ≤ length p.now }
    ensures { result ≡ marked_good p.now }
{
    optional_good(p, 2) & optional_good(p, 10) & optional_good(p, 18) & (word_in(p, 26) <= 1)
}

pub fn fin_good(p: &[u8]) -> bool
    requires { 18 ≤ length p.now }
    ensures { result ≡ (leb (number_at p.now 2) 1 && leb (number_at p.now 3) 1) }
{
    (word_in(p, 10) <= 1) & (word_in(p, 14) <= 1)
}

// Bits that a float is written with: of those that are not a number's one pattern passes.
fn bits_good(n: u64) -> bool
    ensures { result ≡ bits_good n }
{
    bits_of(float_of(n)) == n
}

// The session's tolerance has bits of 0, an own one is a tolerance.
fn tolerance_good(tag: u32, n: u64) -> bool
    ensures { result ≡ tolerance_good tag n }
{
    if tag == 0 {
        return n == 0;
    }
    tolerance_ok(float_of(n))
}

// A carrier that is neither a line nor a plane has bits of 0.
fn carrier_bits(tag: u32, n: u64) -> bool
    ensures { result ≡ carrier_bits tag n }
{
    if tag == 2 {
        return n == 0;
    }
    bits_good(n)
}

pub fn edge_good(p: &[u8]) -> bool
    requires { 38 ≤ length p.now }
    ensures { result ≡ (marked_good p.now && tolerance_good (number_at p.now 6) (bits_at p.now 7 0)) }
{
    marked_good(p) & tolerance_good(word_in(p, 26), bits_in(p, 30))
}

pub fn vertex_good(p: &[u8]) -> bool
    requires { 38 ≤ length p.now }
    ensures { result ≡ vertex_good p.now }
{
    let tag = word_in(p, 2);
    (tag <= 1)
        & bits_good(bits_in(p, 6))
        & bits_good(bits_in(p, 14))
        & bits_good(bits_in(p, 22))
        & tolerance_good(tag, bits_in(p, 30))
}

// Three of a carrier's six floats.
fn three_good(tag: u32, p: &[u8], at: usize) -> bool
    requires { at + 24 ≤ length p.now }
    ensures { result ≡ (carrier_bits tag (number 8 (drop at p.now)) && carrier_bits tag (number 8 (drop (at + 8) p.now)) && carrier_bits tag (number 8 (drop (at + 16) p.now))) }
{
    carrier_bits(tag, bits_in(p, at))
        & carrier_bits(tag, bits_in(p, at + 8))
        & carrier_bits(tag, bits_in(p, at + 16))
}

pub fn carrier_good(p: &[u8]) -> bool
    requires { 54 ≤ length p.now }
    ensures { result ≡ carrier_good p.now }
{
    let tag = word_in(p, 2);
    (tag <= 2) & (three_good(tag, p, 6) & three_good(tag, p, 30))
}
