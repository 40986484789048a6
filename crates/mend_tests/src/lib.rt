// Inner: why the lists of a body are not mended: 2 for a record that is missing, then 1 for one with two parents (W-208). One pass over the tables, from the fins up, gives each record a
// status (`specs/Status.antt`), so that the cost is that of reading the lists twice, whatever they name.
//
// The family mend_: back pointers mended from the lists of a body (W-208). `meaning_mends` says what a mending changes and when it is refused. It is asked by an office (office_mends). Read mend_tests, mend_meetings, mend_exact,
// mend_walk, mend_writes, mend_effects, mend_body.
#![tactic(auto)]

ghost use Rattle.std.specs.Prelude.{◌≡◌, List, ◌-◌, ◌≤◌, ◌<◌, Float};
ghost use Rattle.meaning_mends.specs.Mends.{lists_refusal};
ghost use Rattle.memory_layout.specs.Names.{REGIONS};
ghost use Rattle.memory_layout.specs.Layout.{word};
ghost use Rattle.memory_layout.specs.Decode.{decode};
ghost use Rattle.memory_layout.specs.Fit.{Lists};
ghost use Rattle.split_foreign.specs.Status.{standing};
ghost use Rattle.split_foreign.specs.Facts.{Fresh, Rows};
ghost use Rattle.mend_tests.specs.Status.{followed, more, counted, tallied, again, listed, twice, follows, status, region_status};

use memory_layout::layout::words_of;
use memory_layout::names::{
    AT_FIN_EDGE, BODIES, BODY_REGIONS, EDGES, FACE_LOOPS, FACES, FINS, LOOP_FINS, LOOPS,
    REGION_SHELLS, REGIONS, SHELL_FACES, SHELLS,
};
use memory_lists::list;
use split_foreign::{bit, greater, list_status};

const FOLLOWED: [usize; 5] = [
    BODY_REGIONS,
    REGION_SHELLS,
    SHELL_FACES,
    FACE_LOOPS,
    LOOP_FINS,
];

// The list of a record of table k that names records of the next table.
fn followed(k: usize) -> usize
    requires { k < 5 }
    ensures { result ≡ word followed k }
{
    FOLLOWED[k]
}

// One more, up to 2, which is enough to tell two parents.
fn more(n: u8) -> u8
    ensures { result ≡ more n }
{
    if n == 0 {
        return 1;
    }
    2
}

// One more listing of i.
fn count_one(counts: &mut [u8], i: usize)
    ensures { counts.new ≡ counted counts.old i }
{
    if i < counts.len() {
        counts[i] = more(counts[i]);
    }
}

// The listings of one list.
fn count_list(ids: &[u32], counts: &mut [u8])
    ensures { counts.new ≡ tallied counts.old ids.now }
{
    for id in ids {
        count_one(counts, *id as usize);
    }
}

// Those of the lists of all records of table k, whatever body they are of.
fn count_listed(room: &[usize; 10], words: &[u32], k: usize, counts: &mut [u8])
    requires lists { Lists room.now words.now }
    requires k_bound { k < 5 }
    ensures { counts.new ≡ tallied counts.old (listed room.now words.now k) }
{
    let j = followed(k);
    let used = words[k] as usize;
    for p in 0..used {
        count_list(list(room, words, j, p), counts);
    }
}

// The status of a record by its own listings.
fn again(counts: &[u8], i: usize) -> u8
    ensures { result ≡ again counts.now i }
{
    if i < counts.len() {
        return bit(1 < counts[i]);
    }
    0
}

// The status of what record i of table k leads to: of a fin its edge.
fn follows(room: &[usize; 10], words: &[u32], k: usize, below: &[u8], i: usize) -> u8
    requires lists { Lists room.now words.now }
    requires k_bound { (k < 6) × (i < word words.now k) }
    ensures { result ≡ follows room.now words.now k (standing below.now) i }
{
    if k != FINS {
        return list_status(below, list(room, words, followed(k), i));
    }
    let w = words_of(room, words, FINS, i);
    if w[AT_FIN_EDGE] < words[EDGES] {
        return 0;
    }
    2
}

// The statuses of the records of table k, by their listings and the statuses of the records below.
fn raise(room: &[usize; 10], words: &[u32], k: usize, counts: &[u8], below: &[u8], own: &mut [u8])
    requires lists { Lists room.now words.now }
    requires k_bound { k < 6 }
    requires fresh { Fresh (word words.now k) own.old }
    ensures { Rows (word words.now k) (status room.now words.now k (again counts.now) (standing below.now)) own.new }
{
    let used = words[k] as usize;
    for i in 0..used {
        own[i] = greater(again(counts, i), follows(room, words, k, below, i));
    }
}

// The same, with the listings by the table before: there a record of table k has its parent.
fn raise_once(room: &[usize; 10], words: &[u32], k: usize, below: &[u8], own: &mut [u8])
    requires lists { Lists room.now words.now }
    requires le_k { (1 ≤ k) × (k < 6) }
    requires fresh { Fresh (word words.now k) own.old }
    ensures { Rows (word words.now k) (status room.now words.now k (twice room.now words.now (k - 1)) (standing below.now)) own.new }
{
    let mut counts = [0u8; 4096];
    count_listed(room, words, k - 1, &mut counts);
    raise(room, words, k, &counts, below, own);
}

// The statuses of the regions: from the fins up, each table once. A face may be listed by two shells, so its listings are not counted.
fn region_statuses(room: &[usize; 10], words: &[u32], regions: &mut [u8])
    requires lists { Lists room.now words.now }
    requires fresh { Fresh (word words.now REGIONS) regions.old }
    ensures { Rows (word words.now REGIONS) (region_status room.now words.now) regions.new }
{
    let none: [u8; 0] = [];
    let mut fins = [2u8; 4096];
    raise_once(room, words, FINS, &none, &mut fins);
    let mut loops = [2u8; 512];
    raise_once(room, words, LOOPS, &fins, &mut loops);
    let mut faces = [2u8; 512];
    raise(room, words, FACES, &none, &loops, &mut faces);
    let mut shells = [2u8; 128];
    raise_once(room, words, SHELLS, &faces, &mut shells);
    raise_once(room, words, REGIONS, &shells, regions);
}

// Why the lists of a body are not mended, else 0: 2 for a missing record, then 1 for one with two parents. The greatest status is the first of them.
pub fn lists_refusal(room: &[usize; 10], words: &[u32], body: usize) -> u32
    requires { Lists room.now words.now }
    ensures { (x : List Float) → result ≡ lists_refusal (decode room.now words.now x) body }
{
    if words[BODIES] as usize <= body {
        return 2;
    }
    let mut regions = [2u8; 128];
    region_statuses(room, words, &mut regions);
    list_status(&regions, list(room, words, BODY_REGIONS, body)) as u32
}
