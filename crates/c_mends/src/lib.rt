// Inner: a mending and its dry run as a C program asks for them (W-208): the answer's number, and the number of changes in a lent slot, which a refusal leaves as it was.
#![tactic(auto)]

ghost use Rattle.std.specs.Prelude.{◌≡◌, length, replicate};
ghost use Rattle.memory_writes.specs.Put.{unless_refused};
ghost use Rattle.office_mends.specs.Answers.{office_mend_number, office_mend_count, office_mend_list, office_mend_words};
ghost use Rattle.c_lent.specs.Lent.{lent, alone};

use mend_body::Mending;

fn put_count(r: Mending, value: &mut [usize; 1]) -> u32
    ensures value { result ≡ r.refused }
    ensures value_after { value.new ≡ unless_refused result (alone r.changes) value.old }
{
    if r.refused != 0 {
        return r.refused;
    }
    *value = [r.changes];
    0
}

// The changes of a body, listed.
pub fn mend_changes(
    room: &[usize; 10],
    words: &[u32],
    reals: &[f64],
    office: u32,
    body: usize,
    marks: &mut [u8],
    nums: &mut [u32],
    value: &mut [usize; 1],
) -> u32
    ensures answer { result ≡ lent office_mend_number room words reals office body marks.old nums.old }
    ensures slots { value.new ≡ unless_refused result (alone (lent office_mend_count room words reals office body marks.old nums.old)) value.old }
    ensures list { nums.new ≡ lent office_mend_list room words reals office body marks.old nums.old }
    ensures marks { marks.new ≡ replicate (length marks.old) 0 }
{
    put_count(
        office_mends::mend_changes(room, words, reals, office, body, marks, nums),
        value,
    )
}

// The changes of a body, listed and made.
pub fn mend(
    room: &[usize; 10],
    words: &mut [u32],
    reals: &[f64],
    office: u32,
    body: usize,
    marks: &mut [u8],
    nums: &mut [u32],
    value: &mut [usize; 1],
) -> u32
    ensures answer { result ≡ office_mend_number room.now words.old reals.now office body marks.old nums.old }
    ensures slots { value.new ≡ unless_refused result (alone (office_mend_count room.now words.old reals.now office body marks.old nums.old)) value.old }
    ensures list { nums.new ≡ office_mend_list room.now words.old reals.now office body marks.old nums.old }
    ensures tables { words.new ≡ office_mend_words room.now words.old reals.now office body marks.old nums.old }
    ensures marks { marks.new ≡ replicate (length marks.old) 0 }
{
    put_count(
        office_mends::mend(room, words, reals, office, body, marks, nums),
        value,
    )
}
