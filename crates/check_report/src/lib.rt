// Inner: `check_body` of gensolid-check's lib.rs over lent memory, its faults in plain numbers, four to a fault; `first_fault` (W-207) and `fit_to_saw` (01, "Faults"); whatever the body's office, callers
// ask `office_measures`. specs/Calls.antt says which number, which report and which words. Besides, `check`, which asks for what the refusals have tested.
#![tactic(auto)]

ghost use Rattle.std.specs.Prelude.{◌≡◌, true, List, [], ◌∷◌, ◌≤◌, ◌<◌, ◌/◌, length, replicate, take};
ghost use Rattle.meaning.specs.Faults.{Fault, counts, kept};
ghost use Rattle.memory_layout.specs.Names.{BODIES};
ghost use Rattle.memory_layout.specs.Layout.{word};
ghost use Rattle.memory_layout.specs.Readable.{readable};
ghost use Rattle.check_reasons.specs.Log.{faults_words};
ghost use Rattle.walk_answers.specs.Calls.{in_front};
ghost use Rattle.check_findings.specs.Findings.{nothing_yet};
ghost use Rattle.check_report.specs.Calls.{asked, seen_counts, first_of, told, check_answer, check_words, first_answer, fit_answer};
ghost use Rattle.check_report.specs.Up.{report_up, answer_up, words_up};

use check_findings::body_findings;
use check_fit::fit_if;
use check_reasons::{FIRST, Tally};
use check_refusals::{kept_of, refusal};
use memory_layout::names::{EDGES, FACES};
use station_answers::{Checked, Counts, Sawable};
use walk_marks::clear;

// A fault: kind, class by its table, id, reason.
#[derive(Clone, Copy)]
pub struct FaultFound {
    pub kind: u32,
    pub class: u32,
    pub id: u32,
    pub reason: u32,
}

// The first fault, none, or the refusal's number.
#[derive(Clone, Copy)]
pub enum FirstFault {
    None,
    Is(FaultFound),
    Refused(u32),
}

// Nothing found so far.
fn start(first: bool) -> Tally
    ensures { result ≡ nothing_yet first }
{
    if first {
        return Tally {
            faults: 0,
            unchecked: FIRST,
        };
    }
    Tally {
        faults: 0,
        unchecked: 0,
    }
}

// The report, all of it or up to the first fault, its faults put into as many whole entries as the list has. The marks come all zero and are left so.
fn check(
    room: &[usize; 10],
    words: &[u32],
    reals: &[f64],
    nums: &mut [u32],
    first: bool,
    geometry: bool,
    n: u32,
    body: usize,
    faces: &mut [u8],
    edges: &mut [u8],
) -> Counts
    requires reals_value { readable room.now words.now reals.now ≡ true }
    requires n_bound { (n ≤ 255) × (body < word words.now BODIES) }
    requires faces_value { faces.old ≡ replicate (length faces.old) 0 }
    requires edges_value { edges.old ≡ replicate (length edges.old) 0 }
    ensures value { result ≡ seen_counts (counts (length nums.old / 4) (report_up room.now words.now reals.now body first (asked geometry n))) }
    ensures nums_after { nums.new ≡ in_front (faults_words (kept (length nums.old / 4) (report_up room.now words.now reals.now body first (asked geometry n)))) nums.old }
    ensures faces_after { faces.new ≡ replicate (length faces.old) 0 }
    ensures edges_after { edges.new ≡ replicate (length edges.old) 0 }
{
    let nothing = start(first);
    let space = nums.len() / 4;
    let end = 4 * space;
    let t = body_findings(
        room,
        words,
        reals,
        &mut nums[..end],
        nothing,
        geometry,
        n,
        body,
        faces,
        edges,
    );
    Counts {
        faults: t.faults,
        kept: kept_of(t.faults, space),
        unchecked: t.unchecked,
    }
}

// Checks a body, to the end or up to the first fault. `faces` and `edges` are seen marks; `nums` gets the faults.
fn checked(
    room: &[usize; 10],
    words: &[u32],
    reals: &[f64],
    body: usize,
    geometry: bool,
    samples: usize,
    first: bool,
    faces: &mut [u8],
    edges: &mut [u8],
    nums: &mut [u32],
) -> Checked
    ensures answer { result ≡ answer_up room.now words.now reals.now body first (asked geometry samples) faces.old edges.old nums.old }
    ensures list { nums.new ≡ words_up room.now words.now reals.now body first (asked geometry samples) faces.old edges.old nums.old }
    ensures faces { faces.new ≡ replicate (length faces.old) 0 }
    ensures edges { edges.new ≡ replicate (length edges.old) 0 }
{
    let enough = (room[FACES] <= faces.len()) & (room[EDGES] <= edges.len());
    clear(faces);
    clear(edges);
    let number = refusal(room, words, reals, enough, samples, body);
    if number != 0 {
        return Checked::Refused(number);
    }
    let n = samples as u32;
    Checked::Is(check(
        room, words, reals, nums, first, geometry, n, body, faces, edges,
    ))
}

// Checks a body. `faces` and `edges` are seen marks; `nums` gets the faults, four words each: kind, class by its table, id, reason.
pub fn check_body(
    room: &[usize; 10],
    words: &[u32],
    reals: &[f64],
    body: usize,
    geometry: bool,
    samples: usize,
    faces: &mut [u8],
    edges: &mut [u8],
    nums: &mut [u32],
) -> Checked
    ensures answer { result ≡ check_answer room.now words.now reals.now body (asked geometry samples) faces.old edges.old nums.old }
    ensures list { nums.new ≡ check_words room.now words.now reals.now body (asked geometry samples) faces.old edges.old nums.old }
    ensures faces { faces.new ≡ replicate (length faces.old) 0 }
    ensures edges { edges.new ≡ replicate (length edges.old) 0 }
{
    checked(
        room, words, reals, body, geometry, samples, false, faces, edges, nums,
    )
}

// What the counts and the words of one entry tell.
fn told_first(faults: usize, nums: [u32; 4]) -> FirstFault
    ensures { (l : List Fault) → faults ≡ length (take 1 l) → nums ≡ in_front (faults_words (take 1 l)) (0 ∷ 0 ∷ 0 ∷ 0 ∷ []) → result ≡ told (first_of l) }
{
    if faults == 0 {
        return FirstFault::None;
    }
    FirstFault::Is(FaultFound {
        kind: nums[0],
        class: nums[1],
        id: nums[2],
        reason: nums[3],
    })
}

// The first fault of a body's report (W-207): nothing behind it is looked at. `faces` and `edges` are seen marks.
pub fn first_fault(
    room: &[usize; 10],
    words: &[u32],
    reals: &[f64],
    body: usize,
    geometry: bool,
    samples: usize,
    faces: &mut [u8],
    edges: &mut [u8],
) -> FirstFault
    ensures answer { result ≡ first_answer room.now words.now reals.now body (asked geometry samples) faces.old edges.old }
    ensures faces { faces.new ≡ replicate (length faces.old) 0 }
    ensures edges { edges.new ≡ replicate (length edges.old) 0 }
{
    let mut nums = [0u32; 4];
    match checked(
        room, words, reals, body, geometry, samples, true, faces, edges, &mut nums,
    ) {
        Checked::Refused(n) => FirstFault::Refused(n),
        Checked::Is(counts) => told_first(counts.faults, nums),
    }
}

// Fit to saw: geometry on, three samples, no fault and nothing unchecked; and a whole solid (W-203).
pub fn fit_to_saw(
    room: &[usize; 10],
    words: &[u32],
    reals: &[f64],
    body: usize,
    faces: &mut [u8],
    edges: &mut [u8],
) -> Sawable
    ensures answer { result ≡ fit_answer room.now words.now reals.now body faces.old edges.old }
    ensures faces { faces.new ≡ replicate (length faces.old) 0 }
    ensures edges { edges.new ≡ replicate (length edges.old) 0 }
{
    let mut none: [u32; 0] = [];
    match check_body(room, words, reals, body, true, 3, faces, edges, &mut none) {
        Checked::Refused(n) => Sawable::Refused(n),
        Checked::Is(counts) => {
            let valid = (counts.faults == 0) & (counts.unchecked == 0);
            Sawable::Is(fit_if(room, words, body, valid))
        }
    }
}
