// Inner: the first fault of a report (W-207) as a C program asks for it: the answer's number, and the fault in lent slots, which a refusal leaves as they were.
#![tactic(auto)]

ghost use Rattle.std.specs.Prelude.{◌≡◌, length, replicate};
ghost use Rattle.std.proofs.Math.Option.{some};
ghost use Rattle.memory_writes.specs.Put.{unless_refused};
ghost use Rattle.check_report.specs.Calls.{asked, told};
ghost use Rattle.check_report.specs.declared.FirstFault.TheVariants as Firsts;
ghost use Rattle.office_measures.specs.Answers.{office_check_number};
ghost use Rattle.meaning.specs.Offices.{body_for};
ghost use Rattle.c_lent.specs.Lent.{lent, held, Crosses};
ghost use Rattle.c_answers.specs.Values.{wanted};
ghost use Rattle.c_first.specs.Slots.{found_value, first_value};

use check_report::{FaultFound, FirstFault};
use office_measures::first_fault;

// 1 and the fault.
fn fault_value(f: FaultFound) -> [u32; 5]
    ensures { result ≡ found_value (some f) }
{
    [1, f.kind, f.class, f.id, f.reason]
}

fn put_first(answer: FirstFault, value: &mut [u32; 5]) -> u32
    ensures { Crosses told Firsts.Refused found_value answer result value.old value.new }
{
    match answer {
        FirstFault::None => {
            *value = [0, 0, 0, 0, 0];
            0
        }
        FirstFault::Is(f) => {
            *value = fault_value(f);
            0
        }
        FirstFault::Refused(n) => n,
    }
}

// The first fault of a body's report. `faces` and `edges` are seen marks.
pub fn first_of(
    room: &[usize; 10],
    words: &[u32],
    reals: &[f64],
    office: u32,
    body: usize,
    geometry: u32,
    samples: usize,
    faces: &mut [u8],
    edges: &mut [u8],
    value: &mut [u32; 5],
) -> u32
    ensures answer { result ≡ lent office_check_number room words reals office body (asked (wanted geometry) samples) faces.old edges.old }
    ensures slots { value.new ≡ unless_refused result (lent first_value room words reals (body_for (held room words reals) office body) (asked (wanted geometry) samples)) value.old }
    ensures faces { faces.new ≡ replicate (length faces.old) 0 }
    ensures edges { edges.new ≡ replicate (length edges.old) 0 }
{
    let answer = first_fault(
        room,
        words,
        reals,
        office,
        body,
        geometry != 0,
        samples,
        faces,
        edges,
    );
    put_first(answer, value)
}
