// Inner: the reasons' table, and the log of the checker in plain numbers, four words to a fault, the first that fit kept (01, "Faults").
//
// The family check_: the report of a body (gensolid-check's lib.rs). It is asked by an office (office_measures); call check_fault_list for its faults as structs. Read from the
// inside out: check_reasons, check_points, check_ends, check_edge, check_fin, check_open_loop, check_loop, check_face, check_regions, check_manifold,
// check_findings; then check_refusals, check_fit, check_report, check_fault_list.
#![tactic(auto)]

ghost use Rattle.std.specs.Prelude.{◌≡◌, cond, List, [], ◌∷◌, ℕ, ◌≤◌, ◌<◌, ◌*◌, eqb};
ghost use Rattle.std.proofs.lemmas.List.Edits.{sets};
ghost use Rattle.meaning.specs.Faults.{skipped, fault_on, about, only_if};
ghost use Rattle.check_reasons.specs.Log.{class_at, row_of, stopped, over, Noted, Enough};

use walk_marks::put;

// The class of an entity, by its table; ASKED is the class of what was asked about.
pub const BODY: u32 = 0;

pub const REGION: u32 = 1;

pub const SHELL: u32 = 2;

pub const FACE: u32 = 3;

pub const LOOP: u32 = 4;

pub const FIN: u32 = 5;

pub const EDGE: u32 = 6;

pub const VERTEX: u32 = 7;

const ASKED: u32 = 8;

// What is fixed for a reason: the fault's kind, and the class of the entity that it is put on.
#[derive(Clone, Copy)]
pub struct Reason {
    pub kind: u32,
    pub class: u32,
}

// 01's reasons, 1 to 26. The classes are numbers here, so that a row is a line.
const REASONS: [Reason; 26] = [
    Reason { kind: 3, class: 0 },
    Reason { kind: 3, class: 0 },
    Reason { kind: 1, class: 0 },
    Reason { kind: 2, class: 1 },
    Reason { kind: 1, class: 1 },
    Reason { kind: 2, class: 2 },
    Reason { kind: 1, class: 2 },
    Reason { kind: 2, class: 3 },
    Reason { kind: 8, class: 3 },
    Reason { kind: 1, class: 3 },
    Reason { kind: 2, class: 4 },
    Reason { kind: 4, class: 4 },
    Reason { kind: 1, class: 4 },
    Reason { kind: 2, class: 5 },
    Reason { kind: 1, class: 5 },
    Reason { kind: 2, class: 6 },
    Reason { kind: 1, class: 6 },
    Reason { kind: 5, class: 5 },
    Reason { kind: 6, class: 6 },
    Reason { kind: 7, class: 6 },
    Reason { kind: 8, class: 6 },
    Reason { kind: 9, class: 7 },
    Reason { kind: 10, class: 7 },
    Reason { kind: 11, class: 6 },
    Reason { kind: 1, class: 8 },
    Reason { kind: 8, class: 8 },
];

// How many faults and how many checks not made there were so far. Where the first fault is all that is asked for (W-207), which tells no checks, those are counted from FIRST: so the tally
// stays two words, which pass in registers, and the full report as fast.
#[derive(Clone, Copy)]
pub struct Tally {
    pub faults: usize,
    pub unchecked: usize,
}

pub const FIRST: usize = 2305843009213693952;

// Is there nothing to look for any more? Asked by the fields: `note` and `skip` hand the struct to nobody, so that it comes to them in registers.
fn stops(faults: usize, unchecked: usize) -> bool
    ensures { result ≡ stopped faults unchecked }
{
    (FIRST <= unchecked) & (faults != 0)
}

pub fn done(t: Tally) -> bool
    ensures { result ≡ over t }
{
    stops(t.faults, t.unchecked)
}

fn row(n: usize) -> Reason
    requires { (0 < n) × (n ≤ 26) }
    ensures { result ≡ row_of n }
{
    REASONS[n - 1]
}

// The table's class, or that of what was asked about.
fn class_or(class: u32, asked: u32) -> u32
    ensures { result ≡ cond (eqb class 8) asked class }
{
    if class == ASKED {
        return asked;
    }
    class
}

// Puts fault k, as far as the list goes.
fn put_fault(nums: &mut [u32], k: usize, kind: u32, class: u32, id: u32, reason: u32)
    requires { k ≤ 1152921504606846976 }
    ensures { nums.new ≡ sets nums.old (4 * k) (kind ∷ class ∷ id ∷ reason ∷ []) }
{
    let at = 4 * k;
    put(nums, at, kind);
    put(nums, at + 1, class);
    put(nums, at + 2, id);
    put(nums, at + 3, reason);
}

// Logs a fault of reason n. `asked` is the class of what was asked about, by its table.
pub fn note(nums: &mut [u32], t: Tally, n: u32, asked: u32, id: u32) -> Tally
    requires n_nonzero { (0 < n) × (n ≤ 26) × (asked < 8) }
    requires enough { Enough t (fault_on n (about (class_at asked) id) ∷ []) }
    ensures { Noted (fault_on n (about (class_at asked) id) ∷ []) nums.old t nums.new result }
{
    if stops(t.faults, t.unchecked) {
        return Tally {
            faults: t.faults,
            unchecked: t.unchecked,
        };
    }
    let reason = row(n as usize);
    put_fault(
        nums,
        t.faults,
        reason.kind,
        class_or(reason.class, asked),
        id,
        n,
    );
    Tally {
        faults: t.faults + 1,
        unchecked: t.unchecked,
    }
}

// Logs a fault of reason n where the test holds.
pub fn note_if(nums: &mut [u32], t: Tally, test: bool, n: u32, asked: u32, id: u32) -> Tally
    requires n_nonzero { (0 < n) × (n ≤ 26) × (asked < 8) }
    requires enough { Enough t (only_if test (fault_on n (about (class_at asked) id))) }
    ensures { Noted (only_if test (fault_on n (about (class_at asked) id))) nums.old t nums.new result }
{
    if test {
        return note(nums, t, n, asked, id);
    }
    t
}

// Counts a check that could not be made.
pub fn skip(t: Tally) -> Tally
    requires { Enough t (skipped ∷ []) }
    ensures { (d : List ℕ) → Noted (skipped ∷ []) d t d result }
{
    if stops(t.faults, t.unchecked) {
        return Tally {
            faults: t.faults,
            unchecked: t.unchecked,
        };
    }
    Tally {
        faults: t.faults,
        unchecked: t.unchecked + 1,
    }
}
