// For callers: `mend_changes`, the changes that a mending of a body makes, listed and not made, and `mend`, which makes them (W-208), by the office that asks. `specs/Answers.antt` says what they answer and leave.
#![tactic(auto)]

ghost use Rattle.std.specs.Prelude.{◌≡◌, length, replicate};
ghost use Rattle.office_mends.specs.Answers.{office_mend_number, office_mend_count, office_mend_list, office_mend_words};

use memory_offices::body_for;
use memory_readable::unknown_tag;
use mend_body::Mending;
use walk_marks::clear;

// The changes of a body, listed: six words each, the record's class by its table, its id, the field, the place in a list, the old value and the new one. `marks` are 6,912 bytes at least.
pub fn mend_changes(
    room: &[usize; 10],
    words: &[u32],
    reals: &[f64],
    office: u32,
    body: usize,
    marks: &mut [u8],
    nums: &mut [u32],
) -> Mending
    ensures refused { result.refused ≡ office_mend_number room.now words.now reals.now office body marks.old nums.old }
    ensures changes { result.changes ≡ office_mend_count room.now words.now reals.now office body marks.old nums.old }
    ensures list { nums.new ≡ office_mend_list room.now words.now reals.now office body marks.old nums.old }
    ensures marks { marks.new ≡ replicate (length marks.old) 0 }
{
    if 1 < office {
        clear(marks);
        return Mending {
            refused: unknown_tag(room, words, reals),
            changes: 0,
        };
    }
    let seen = body_for(words, office, body);
    mend_body::mend_changes(room, words, reals, seen, marks, nums)
}

// The changes of a body, listed and made.
pub fn mend(
    room: &[usize; 10],
    words: &mut [u32],
    reals: &[f64],
    office: u32,
    body: usize,
    marks: &mut [u8],
    nums: &mut [u32],
) -> Mending
    ensures refused { result.refused ≡ office_mend_number room.now words.old reals.now office body marks.old nums.old }
    ensures changes { result.changes ≡ office_mend_count room.now words.old reals.now office body marks.old nums.old }
    ensures list { nums.new ≡ office_mend_list room.now words.old reals.now office body marks.old nums.old }
    ensures tables { words.new ≡ office_mend_words room.now words.old reals.now office body marks.old nums.old }
    ensures marks { marks.new ≡ replicate (length marks.old) 0 }
{
    if 1 < office {
        clear(marks);
        return Mending {
            refused: unknown_tag(room, &words[..], reals),
            changes: 0,
        };
    }
    let seen = body_for(&words[..], office, body);
    mend_body::mend(room, words, reals, seen, marks, nums)
}
