// Inner: one record of the lent memory as bytes, its length and its writing (W-202). `specs/Kept.antt` says which fields an image keeps of it.
#![tactic(auto)]

ghost use Rattle.std.specs.Prelude.{◌≡◌, suc, ◌+◌, ◌<◌, ◌≤◌, length, take, drop};
ghost use Rattle.memory_layout.specs.Names.{BODIES, AT_BODY_OFFICE};
ghost use Rattle.memory_layout.specs.Layout.{word};
ghost use Rattle.memory_layout.specs.Decode.{office_of};
ghost use Rattle.memory_layout.specs.Fit.{Held};
ghost use Rattle.memory_writes.specs.Put.{over};
ghost use Rattle.image_format.specs.Bytes.{words, floats};
ghost use Rattle.image_format.specs.Fields.{mark_of, word_counts, float_counts, list_counts, record_image};
ghost use Rattle.image_records.specs.Kept.{fields_of, Kept, office_here, id_behind, three_ids, head_of, unsaid, tail_of, places_of, lists_of, record_length, Listed};

use image_bytes::{put_floats, put_mark, put_words};
use memory_layout::names::{
    AT_BODY_OFFICE, AT_CARRIER_TAG, AT_EDGE_TOLERANCE, AT_FACE_BACK, AT_FACE_FRONT, AT_FACE_SENSE,
    AT_FACE_SURFACE, AT_VERTEX_TOLERANCE, BODIES, BODY_REGIONS, EDGE_FINS, EDGES, FACE_LOOPS,
    FACES, LOOP_FINS, REGION_SHELLS, SHELL_FACES,
};
use memory_lists::list_place;

// By table, and last the precision's record and the version's, as `specs/Fields.antt` of `image_format` has them: the marks, BO, RE, SH, FA, LO, FI, ED, VE, CU, SU, PR, VN; how many numbers, floats
// and lists.
const MARKS: [u32; 12] = [
    0x4f42, 0x4552, 0x4853, 0x4146, 0x4f4c, 0x4946, 0x4445, 0x4556, 0x5543, 0x5553, 0x5250, 0x4e56,
];

const WORDS: [usize; 12] = [1, 2, 1, 7, 1, 4, 7, 1, 1, 1, 10, 1];

const FLOATS: [usize; 12] = [0, 0, 0, 0, 0, 0, 1, 4, 6, 6, 1, 0];

const LISTS: [usize; 12] = [1, 1, 3, 1, 1, 0, 1, 0, 0, 0, 0, 0];

// A body of office 1 has a mark of its own (W-206), BP.
const SECOND_BODY_MARK: u32 = 0x5042;

// By table: the first of its lists; where the tag stands that may leave the last floats unsaid, the tag that does, and how many they are.
const FIRST_LISTS: [usize; 10] = [
    BODY_REGIONS,
    REGION_SHELLS,
    SHELL_FACES,
    FACE_LOOPS,
    LOOP_FINS,
    0,
    EDGE_FINS,
    0,
    0,
    0,
];

const TAG_PLACES: [usize; 10] = [
    0,
    0,
    0,
    0,
    0,
    0,
    AT_EDGE_TOLERANCE,
    AT_VERTEX_TOLERANCE,
    AT_CARRIER_TAG,
    AT_CARRIER_TAG,
];

const QUIET_TAGS: [u32; 10] = [0, 0, 0, 0, 0, 0, 0, 0, 2, 2];

const QUIET_FLOATS: [usize; 10] = [0, 0, 0, 0, 0, 0, 1, 1, 6, 6];

// A body's mark, by its office.
fn body_mark(w: &[u32]) -> u32
    requires { AT_BODY_OFFICE < length w.now }
    ensures { result ≡ mark_of BODIES (office_of (word w.now AT_BODY_OFFICE)) }
{
    if w[AT_BODY_OFFICE] == 0 {
        return MARKS[BODIES];
    }
    SECOND_BODY_MARK
}

// One of them, for table k.
fn mark_of(k: usize, w: &[u32]) -> u32
    requires { Listed k w.now }
    ensures { result ≡ mark_of k (office_here k w.now) }
{
    if k == BODIES {
        return body_mark(w);
    }
    MARKS[k]
}

fn word_count(k: usize) -> usize
    requires { k < 10 }
    ensures { result ≡ word word_counts k }
{
    WORDS[k]
}

fn float_count(k: usize) -> usize
    requires { k < 10 }
    ensures { result ≡ word float_counts k }
{
    FLOATS[k]
}

fn list_count(k: usize) -> usize
    requires { k < 10 }
    ensures { result ≡ word list_counts k }
{
    LISTS[k]
}

// Where list j of a record stands.
fn place_of(k: usize, j: usize) -> usize
    requires { (k < 10) × (j < word list_counts k) }
    ensures { result ≡ word (places_of k) j }
{
    list_place(FIRST_LISTS[k] + j)
}

// A list with its count before it.
fn counted(w: &[u32], at: usize) -> &[u32]
    requires { Held w.now at }
    ensures { result.now ≡ take (suc (word w.now at)) (drop at w.now) }
{
    let n = w[at] as usize;
    let end = at + 1 + n;
    &w[at..end]
}

// How many bytes the lists of a record take.
fn lists_length(k: usize, w: &[u32]) -> usize
    requires { Listed k w.now }
    ensures { result ≡ length (lists_of k w.now (word list_counts k)) }
{
    let n = list_count(k);
    let mut long = 0;
    for j in 0..n {
        let at = place_of(k, j);
        long += 4 * (w[at] as usize + 1);
    }
    long
}

// How many bytes a record takes.
pub fn record_length(k: usize, w: &[u32]) -> usize
    requires { Listed k w.now }
    ensures { result ≡ record_length k w.now }
{
    2 + 4 * word_count(k) + 8 * float_count(k) + lists_length(k, w)
}

// An optional id, 0 for none.
fn id_behind(w: &[u32], at: usize) -> u32
    requires { at + 1 < length w.now }
    ensures { result ≡ id_behind w.now at }
{
    if w[at] == 0 {
        return 0;
    }
    w[at + 1]
}

// A face and an edge begin alike, with three optional ids and a tag.
fn three_ids(w: &[u32]) -> [u32; 7]
    requires { 16 ≤ length w.now }
    ensures { result ≡ three_ids w.now }
{
    let front = id_behind(w, AT_FACE_FRONT);
    let back = id_behind(w, AT_FACE_BACK);
    let surface = id_behind(w, AT_FACE_SURFACE);
    [
        w[AT_FACE_FRONT],
        front,
        w[AT_FACE_BACK],
        back,
        w[AT_FACE_SURFACE],
        surface,
        w[AT_FACE_SENSE],
    ]
}

// A record's numbers: where they end.
fn put_head(k: usize, w: &[u32], bytes: &mut [u8], at: usize) -> usize
    requires listed { Listed k w.now }
    requires w_in_bounds { at + length (words (head_of k w.now)) ≤ length bytes.old }
    ensures end { result ≡ at + length (words (head_of k w.now)) }
    ensures written { bytes.new ≡ over at (words (head_of k w.now)) bytes.old }
{
    let n = word_count(k);
    let end = at + 4 * n;
    if (k == FACES) | (k == EDGES) {
        let head = three_ids(w);
        put_words(bytes, at, &head);
        return end;
    }
    put_words(bytes, at, &w[..n]);
    end
}

// How many of the last floats the model does not say: the tolerance that is the session's, a carrier that is neither a line nor a plane.
fn unsaid(k: usize, w: &[u32]) -> usize
    requires { Listed k w.now }
    ensures { result ≡ unsaid k w.now }
{
    if w[TAG_PLACES[k]] != QUIET_TAGS[k] {
        return 0;
    }
    QUIET_FLOATS[k]
}

// A record's floats: where they end.
fn put_tail(k: usize, w: &[u32], x: &[f64], bytes: &mut [u8], at: usize) -> usize
    requires listed { Listed k w.now }
    requires x_len { length x.now ≡ word float_counts k }
    requires x_in_bounds { at + length (floats (tail_of k w.now x.now)) ≤ length bytes.old }
    ensures end { result ≡ at + length (floats (tail_of k w.now x.now)) }
    ensures written { bytes.new ≡ over at (floats (tail_of k w.now x.now)) bytes.old }
{
    let quiet = unsaid(k, w);
    let said = x.len() - quiet;
    let zeros = [0.0; 6];
    put_floats(bytes, at, &x[..said]);
    put_floats(bytes, at + 8 * said, &zeros[..quiet]);
    at + 8 * x.len()
}

// A record's lists: where they end.
fn put_lists(k: usize, w: &[u32], bytes: &mut [u8], at: usize) -> usize
    requires listed { Listed k w.now }
    requires k_in_bounds { at + length (lists_of k w.now (word list_counts k)) ≤ length bytes.old }
    ensures end { result ≡ at + length (lists_of k w.now (word list_counts k)) }
    ensures written { bytes.new ≡ over at (lists_of k w.now (word list_counts k)) bytes.old }
{
    let n = list_count(k);
    let mut to = at;
    for j in 0..n {
        let l = counted(w, place_of(k, j));
        put_words(bytes, to, l);
        to += 4 * l.len();
    }
    to
}

// A record: where it ends.
pub fn write_record(k: usize, w: &[u32], x: &[f64], bytes: &mut [u8], at: usize) -> usize
    requires kept { Kept k w.now x.now }
    requires x_in_bounds { at + length (record_image k (fields_of k w.now x.now)) ≤ length bytes.old }
    ensures end { result ≡ at + length (record_image k (fields_of k w.now x.now)) }
    ensures written { bytes.new ≡ over at (record_image k (fields_of k w.now x.now)) bytes.old }
{
    put_mark(bytes, at, mark_of(k, w));
    let tail = put_head(k, w, bytes, at + 2);
    let lists = put_tail(k, w, x, bytes, tail);
    put_lists(k, w, bytes, lists)
}
