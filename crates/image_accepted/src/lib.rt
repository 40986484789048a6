// Inner: whether bytes are an image (W-202, W-211). `specs/Image.antt` of `image_format` says which are. Other crates call `accepted` and `count_in`, and `version_in` and `records_in` of `version`.
#![tactic(auto)]

pub mod version;

ghost use Rattle.std.specs.Prelude.{◌≡◌, ◌<◌, ◌≤◌, length};
ghost use Rattle.image_format.specs.Image.{count_in, accepted};
ghost use Rattle.image_accepted.specs.Ends.{records_end, tables_end};
ghost use Rattle.image_accepted.specs.Head.{head_good};
ghost use Rattle.image_accepted.specs.Whole.{counts_good, records_accepted};

use crate::version::{records_in, version_good};
use image_bytes::{bits_in, float_of, mark_in, word_in};
use image_record_test::record_end;
use memory_record_test::allowed::precision_ok;

// 01's largest tables.
const LARGEST: [u32; 10] = [64, 128, 128, 512, 512, 4096, 2048, 2048, 2048, 512];

// The precision's record.
fn head_good(bytes: &[u8]) -> bool
    ensures { result ≡ head_good bytes.now }
{
    if bytes.len() < 50 {
        return false;
    }
    (mark_in(bytes, 0) == 0x5250) & precision_ok(float_of(bits_in(bytes, 42)))
}

// How many records of table k it names.
pub fn count_in(bytes: &[u8], k: usize) -> u32
    requires k_bound { k < 10 }
    requires in_bounds { 50 ≤ length bytes.now }
    ensures { result ≡ count_in bytes.now k }
{
    word_in(bytes, 2 + 4 * k)
}

fn counts_good(bytes: &[u8]) -> bool
    requires { 50 ≤ length bytes.now }
    ensures { result ≡ counts_good bytes.now }
{
    let mut ok = true;
    for (k, most) in LARGEST.iter().enumerate() {
        ok = ok & (count_in(bytes, k) <= *most);
    }
    ok
}

// Where n records of table k end, the first of them at a place: 0 where one is not good.
fn records_end(k: usize, n: u32, bytes: &[u8], at: usize) -> usize
    requires k_bound { k < 10 }
    requires at_in_bounds { at ≤ length bytes.now }
    ensures value { result ≡ records_end k bytes.now n at }
    ensures upper_bound { result ≤ length bytes.now }
{
    let mut end = at;
    for _ in 0..n {
        end = record_end(k, bytes, end);
    }
    end
}

// Where the last table ends.
fn tables_end(bytes: &[u8]) -> usize
    requires { 50 ≤ length bytes.now }
    ensures { result ≡ tables_end bytes.now 10 }
{
    let mut end = 50;
    for k in 0..10 {
        end = records_end(k, count_in(bytes, k), bytes, end);
    }
    end
}

// Are the bytes the precision's record and the tables of an image?
fn records_good(bytes: &[u8]) -> bool
    ensures { result ≡ records_accepted bytes.now }
{
    if !head_good(bytes) {
        return false;
    }
    if !counts_good(bytes) {
        return false;
    }
    tables_end(bytes) == bytes.len()
}

// Are the bytes an image?
pub fn accepted(bytes: &[u8]) -> bool
    ensures { result ≡ accepted bytes.now }
{
    if !version_good(bytes) {
        return false;
    }
    records_good(records_in(bytes))
}
