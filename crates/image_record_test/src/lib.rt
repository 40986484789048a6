// Inner: whether an image may have the record that begins at a place of it, and where that record ends (W-202): `specs/Good.antt`. Other crates call `record_end`.
#![tactic(auto)]

pub mod fields;
pub mod parts;

ghost use Rattle.std.specs.Prelude.{◌≡◌, [], ◌<◌, ◌≤◌, length, get_or};
ghost use Rattle.image_format.specs.Fields.{list_limits_of};
ghost use Rattle.image_record_test.specs.Good.{record_end};
ghost use Rattle.image_record_test.specs.Parts.{fixed_size, mark_good, fixed_good, list_end, lists_end};

use crate::parts::fields_good;
use image_bytes::{mark_in, word_in};
use memory_layout::names::{BODIES, EDGES, FACES, LOOPS, REGIONS, SHELLS};

// The two letters of each table's records, and how many bytes their mark, numbers and floats take.
const MARKS: [u32; 10] = [
    0x4f42, 0x4552, 0x4853, 0x4146, 0x4f4c, 0x4946, 0x4445, 0x4556, 0x5543, 0x5553,
];

const FIXED: [usize; 10] = [6, 10, 6, 30, 6, 18, 38, 38, 54, 54];

// A body of office 1 has a mark of its own (W-206), BP.
const SECOND_BODY_MARK: u32 = 0x5042;

// The mark of a record of table k: a body has two, by its office.
fn mark_good(k: usize, n: u32) -> bool
    requires { k < 10 }
    ensures { result ≡ mark_good k n }
{
    let marks = MARKS;
    ((k == BODIES) & (n == SECOND_BODY_MARK)) | (n == marks[k])
}

// The fixed part at the front of the bytes.
fn fixed_good(k: usize, p: &[u8]) -> bool
    requires k_bound { k < 10 }
    requires k_in_bounds { fixed_size k ≤ length p.now }
    ensures { result ≡ fixed_good k p.now }
{
    mark_good(k, mark_in(p, 0)) & fields_good(k, p)
}

// Where a list ends that begins at a place: 0 where it is too long or cut off, or where the place is 0.
fn list_end(limit: usize, bytes: &[u8], at: usize) -> usize
    requires limit_bound { limit ≤ 1024 }
    requires at_in_bounds { at ≤ length bytes.now }
    ensures value { result ≡ list_end limit bytes.now at }
    ensures upper_bound { result ≤ length bytes.now }
{
    let left = bytes.len() - at;
    if at == 0 {
        return 0;
    }
    if left < 4 {
        return 0;
    }
    let n = word_in(bytes, at) as usize;
    if limit < n {
        return 0;
    }
    let size = 4 * (n + 1);
    if left < size {
        return 0;
    }
    at + size
}

// Where the lists of a record of table k end.
fn lists_end(k: usize, bytes: &[u8], at: usize) -> usize
    requires { at ≤ length bytes.now }
    ensures { result ≡ lists_end (get_or list_limits_of k []) bytes.now at }
{
    match k {
        BODIES => list_end(16, bytes, at),
        REGIONS => list_end(16, bytes, at),
        SHELLS => list_end(64, bytes, list_end(256, bytes, list_end(512, bytes, at))),
        FACES => list_end(16, bytes, at),
        LOOPS => list_end(1024, bytes, at),
        EDGES => list_end(8, bytes, at),
        _ => at,
    }
}

// Where the record ends that begins at a place: 0 where no image has it there, or where the place is 0.
pub fn record_end(k: usize, bytes: &[u8], at: usize) -> usize
    requires k_bound { k < 10 }
    requires at_in_bounds { at ≤ length bytes.now }
    ensures { result ≡ record_end k bytes.now at }
{
    let fixed = FIXED;
    let size = fixed[k];
    if at == 0 {
        return 0;
    }
    if bytes.len() - at < size {
        return 0;
    }
    if !fixed_good(k, &bytes[at..]) {
        return 0;
    }
    lists_end(k, bytes, at + size)
}
