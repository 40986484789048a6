// The parts of a record, from the bytes of an image into the words and floats of one record of the lent memory.
ghost use Rattle.std.specs.Prelude.{◌≡◌, [], ◌∷◌, ◌+◌, ◌≤◌, length, get_or, drop};
ghost use Rattle.memory_layout.specs.Names.{BODIES, AT_SHELL_FACES, AT_SHELL_WIRES, AT_SHELL_ACORNS};
ghost use Rattle.memory_layout.specs.Layout.{word_strides, real_strides, word};
ghost use Rattle.memory_layout.specs.Laid.{office};
ghost use Rattle.memory_writes.specs.Put.{over};
ghost use Rattle.image_format.specs.Bytes.{number};
ghost use Rattle.image_format.specs.Fields.{list_places_of, office_in, fields_in};
ghost use Rattle.image_record_test.specs.Good.{record_size};
ghost use Rattle.image_loading.specs.Laid.{front_of, record_laid};
ghost use Rattle.image_loading.specs.Facts.{Lies};
ghost use Rattle.image_loading.specs.Steps.{behind_list, list_over, ListLies, behind_lists, lists_over, ListsLie};

use image_bytes::{get_floats, get_words, mark_in, word_in};
use memory_layout::names::{
    AT_BODY_KIND, AT_BODY_OFFICE, AT_BODY_REGIONS, AT_EDGE_FINS, AT_FACE_LOOPS, AT_LOOP_FINS,
    AT_REGION_SHELLS, AT_SHELL_ACORNS, AT_SHELL_FACES, AT_SHELL_WIRES, BODIES, EDGES, FACES, LOOPS,
    REGIONS, SHELLS,
};

// How many numbers each table's records have, and how many bytes their mark, numbers and floats take.
const NUMBERS: [usize; 10] = [1, 2, 1, 7, 1, 4, 7, 1, 1, 1];

const FIXED: [usize; 10] = [6, 10, 6, 30, 6, 18, 38, 38, 54, 54];

// A body of office 1 has a mark of its own (W-206), BP.
const SECOND_BODY_MARK: u32 = 0x5042;

// The list that begins at a place, into place p of the record, and where it ends. What stands behind its end in the record stays.
fn load_list(bytes: &[u8], at: usize, w: &mut [u32], p: usize) -> usize
    requires { ListLies bytes.now at p (length w.old) }
    ensures w_after { w.new ≡ list_over bytes.now at p w.old }
    ensures value { result ≡ behind_list bytes.now at }
{
    let n = word_in(bytes, at) as usize;
    get_words(bytes, at, &mut w[p..p + 1 + n]);
    at + 4 * (n + 1)
}

fn load_shell(bytes: &[u8], at: usize, w: &mut [u32]) -> usize
    requires { ListsLie (AT_SHELL_FACES ∷ AT_SHELL_WIRES ∷ AT_SHELL_ACORNS ∷ []) bytes.now at (length w.old) }
    ensures w_after { w.new ≡ lists_over (AT_SHELL_FACES ∷ AT_SHELL_WIRES ∷ AT_SHELL_ACORNS ∷ []) bytes.now at w.old }
    ensures value { result ≡ behind_lists (AT_SHELL_FACES ∷ AT_SHELL_WIRES ∷ AT_SHELL_ACORNS ∷ []) bytes.now at }
{
    let wires = load_list(bytes, at, w, AT_SHELL_FACES);
    let acorns = load_list(bytes, wires, w, AT_SHELL_WIRES);
    load_list(bytes, acorns, w, AT_SHELL_ACORNS)
}

// The lists of a record of table k.
fn load_lists(k: usize, bytes: &[u8], at: usize, w: &mut [u32]) -> usize
    requires { ListsLie (get_or list_places_of k []) bytes.now at (length w.old) }
    ensures w_after { w.new ≡ lists_over (get_or list_places_of k []) bytes.now at w.old }
    ensures value { result ≡ behind_lists (get_or list_places_of k []) bytes.now at }
{
    match k {
        BODIES => load_list(bytes, at, w, AT_BODY_REGIONS),
        REGIONS => load_list(bytes, at, w, AT_REGION_SHELLS),
        SHELLS => load_shell(bytes, at, w),
        FACES => load_list(bytes, at, w, AT_FACE_LOOPS),
        LOOPS => load_list(bytes, at, w, AT_LOOP_FINS),
        EDGES => load_list(bytes, at, w, AT_EDGE_FINS),
        _ => at,
    }
}

// The office that a body's mark tells.
fn office_in(bytes: &[u8], at: usize) -> u32
    requires { at + 2 ≤ length bytes.now }
    ensures { result ≡ office (office_in BODIES (number 2 (drop at bytes.now))) }
{
    if mark_in(bytes, at) == SECOND_BODY_MARK {
        return 1;
    }
    0
}

// The numbers at the front of a body, and of a record of any table.
fn load_body(bytes: &[u8], at: usize, w: &mut [u32])
    requires at_in_bounds { at + 6 ≤ length bytes.now }
    requires w_len { length w.old ≡ word word_strides BODIES }
    ensures { w.new ≡ over 0 (front_of BODIES (fields_in BODIES (drop at bytes.now))) w.old }
{
    let kind = word_in(bytes, at + 2);
    let office = office_in(bytes, at);
    w[AT_BODY_KIND] = kind;
    w[AT_BODY_OFFICE] = office;
}

fn load_front(k: usize, bytes: &[u8], at: usize, w: &mut [u32])
    requires lies { Lies k (drop at bytes.now) }
    requires at_in_bounds { at ≤ length bytes.now }
    requires w_len { length w.old ≡ word word_strides k }
    ensures { w.new ≡ over 0 (front_of k (fields_in k (drop at bytes.now))) w.old }
{
    if k == BODIES {
        load_body(bytes, at, w);
        return;
    }
    let numbers = NUMBERS;
    let n = numbers[k];
    get_words(bytes, at + 2, &mut w[..n]);
}

// The words of the record of table k that begins at a place, and where it ends.
pub fn load_words(k: usize, bytes: &[u8], at: usize, w: &mut [u32]) -> usize
    requires lies { Lies k (drop at bytes.now) }
    requires at_in_bounds { at ≤ length bytes.now }
    requires w_len { length w.old ≡ word word_strides k }
    ensures w_after { w.new ≡ record_laid k (fields_in k (drop at bytes.now)) w.old }
    ensures value { result ≡ at + record_size k (drop at bytes.now) }
{
    let fixed = FIXED;
    let lists = at + fixed[k];
    load_front(k, bytes, at, w);
    load_lists(k, bytes, lists, w)
}

// And its floats.
pub fn load_floats(k: usize, bytes: &[u8], at: usize, x: &mut [f64])
    requires lies { Lies k (drop at bytes.now) }
    requires at_in_bounds { at ≤ length bytes.now }
    requires x_len { length x.old ≡ word real_strides k }
    ensures { x.new ≡ (fields_in k (drop at bytes.now)).floats }
{
    let numbers = NUMBERS;
    get_floats(bytes, at + 2 + 4 * numbers[k], x);
}
