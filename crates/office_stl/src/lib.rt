// For callers: how many bytes a body's binary STL takes, and the writing of it (W-209), by the office that asks (W-206): 9, 1 for an office above 1, then as `stl_writer` answers of the body that
// the id is for that office. specs/Answers.antt says what they answer and leave.
#![tactic(auto)]

ghost use Rattle.std.specs.Prelude.{◌≡◌, length, replicate};
ghost use Rattle.office_stl.specs.Answers.{office_length, office_write, office_written};

use memory_offices::body_for;
use memory_readable::unknown_tag;
use stl_writer::StlLength;
use walk_marks::clear;

// How many bytes the binary STL of a body takes. `faces` are seen marks.
pub fn body_stl_length(
    room: &[usize; 10],
    words: &[u32],
    reals: &[f64],
    office: u32,
    body: usize,
    faces: &mut [u8],
) -> StlLength
    ensures answer { result ≡ office_length room.now words.now reals.now office body faces.old }
    ensures faces { faces.new ≡ replicate (length faces.old) 0 }
{
    if 1 < office {
        clear(faces);
        return StlLength::Refused(unknown_tag(room, words, reals));
    }
    let seen = body_for(words, office, body);
    stl_writer::body_stl_length(room, words, reals, seen, faces)
}

// The binary STL of a body into the first of the lent bytes, and how many they are. A refusal writes none of them.
pub fn body_stl(
    room: &[usize; 10],
    words: &[u32],
    reals: &[f64],
    office: u32,
    body: usize,
    faces: &mut [u8],
    bytes: &mut [u8],
) -> StlLength
    ensures answer { result ≡ office_write room.now words.now reals.now office body faces.old bytes.old }
    ensures bytes { bytes.new ≡ office_written room.now words.now reals.now office body faces.old bytes.old }
    ensures faces { faces.new ≡ replicate (length faces.old) 0 }
{
    if 1 < office {
        clear(faces);
        return StlLength::Refused(unknown_tag(room, words, reals));
    }
    let seen = body_for(words, office, body);
    stl_writer::body_stl(room, words, reals, seen, faces, bytes)
}
