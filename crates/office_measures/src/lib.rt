// For callers: box, volume, report, its first fault and fit to saw of a body, by the office that asks (W-206): 9, 1 for an office above 1, then as `inquire_box`, `inquire_volume` and `check_report`
// answer of the body that the id is for that office. specs/Answers.antt says what each answers.
#![tactic(auto)]

ghost use Rattle.std.specs.Prelude.{◌≡◌, length, replicate};
ghost use Rattle.check_report.specs.Calls.{asked};
ghost use Rattle.office_measures.specs.Answers.{office_box, office_volume, office_report, office_faults, office_first, office_fit};

use check_report::FirstFault;
use memory_offices::body_for;
use memory_readable::unknown_tag;
use station_answers::{BoxFound, Checked, Sawable, Volume};
use walk_marks::clear;

// The box of a body's vertices. `faces`, `edges` and `vertices` are seen marks.
pub fn body_bounding_box(
    room: &[usize; 10],
    words: &[u32],
    reals: &[f64],
    office: u32,
    body: usize,
    faces: &mut [u8],
    edges: &mut [u8],
    vertices: &mut [u8],
) -> BoxFound
    ensures answer { result ≡ office_box room.now words.now reals.now office body faces.old edges.old vertices.old }
    ensures faces { faces.new ≡ replicate (length faces.old) 0 }
    ensures edges { edges.new ≡ replicate (length edges.old) 0 }
    ensures vertices { vertices.new ≡ replicate (length vertices.old) 0 }
{
    if 1 < office {
        clear(faces);
        clear(edges);
        clear(vertices);
        return BoxFound::Refused(unknown_tag(room, words, reals));
    }
    let seen = body_for(words, office, body);
    inquire_box::body_bounding_box(room, words, reals, seen, faces, edges, vertices)
}

// The volume of a body's solid regions. `faces` are seen marks.
pub fn body_volume(
    room: &[usize; 10],
    words: &[u32],
    reals: &[f64],
    office: u32,
    body: usize,
    faces: &mut [u8],
) -> Volume
    ensures answer { result ≡ office_volume room.now words.now reals.now office body faces.old }
    ensures faces { faces.new ≡ replicate (length faces.old) 0 }
{
    if 1 < office {
        clear(faces);
        return Volume::Refused(unknown_tag(room, words, reals));
    }
    let seen = body_for(words, office, body);
    inquire_volume::body_volume(room, words, reals, seen, faces)
}

// Checks a body. `faces` and `edges` are seen marks; `nums` gets the faults, four words each: kind, class by its table, id, reason.
pub fn check_body(
    room: &[usize; 10],
    words: &[u32],
    reals: &[f64],
    office: u32,
    body: usize,
    geometry: bool,
    samples: usize,
    faces: &mut [u8],
    edges: &mut [u8],
    nums: &mut [u32],
) -> Checked
    ensures answer { result ≡ office_report room.now words.now reals.now office body (asked geometry samples) faces.old edges.old nums.old }
    ensures list { nums.new ≡ office_faults room.now words.now reals.now office body (asked geometry samples) faces.old edges.old nums.old }
    ensures faces { faces.new ≡ replicate (length faces.old) 0 }
    ensures edges { edges.new ≡ replicate (length edges.old) 0 }
{
    if 1 < office {
        clear(faces);
        clear(edges);
        return Checked::Refused(unknown_tag(room, words, reals));
    }
    let seen = body_for(words, office, body);
    check_report::check_body(
        room, words, reals, seen, geometry, samples, faces, edges, nums,
    )
}

// The first fault of the report of a body (W-207). `faces` and `edges` are seen marks.
pub fn first_fault(
    room: &[usize; 10],
    words: &[u32],
    reals: &[f64],
    office: u32,
    body: usize,
    geometry: bool,
    samples: usize,
    faces: &mut [u8],
    edges: &mut [u8],
) -> FirstFault
    ensures answer { result ≡ office_first room.now words.now reals.now office body (asked geometry samples) faces.old edges.old }
    ensures faces { faces.new ≡ replicate (length faces.old) 0 }
    ensures edges { edges.new ≡ replicate (length edges.old) 0 }
{
    if 1 < office {
        clear(faces);
        clear(edges);
        return FirstFault::Refused(unknown_tag(room, words, reals));
    }
    let seen = body_for(words, office, body);
    check_report::first_fault(room, words, reals, seen, geometry, samples, faces, edges)
}

// Fit to saw. `faces` and `edges` are seen marks.
pub fn fit_to_saw(
    room: &[usize; 10],
    words: &[u32],
    reals: &[f64],
    office: u32,
    body: usize,
    faces: &mut [u8],
    edges: &mut [u8],
) -> Sawable
    ensures answer { result ≡ office_fit room.now words.now reals.now office body faces.old edges.old }
    ensures faces { faces.new ≡ replicate (length faces.old) 0 }
    ensures edges { edges.new ≡ replicate (length edges.old) 0 }
{
    if 1 < office {
        clear(faces);
        clear(edges);
        return Sawable::Refused(unknown_tag(room, words, reals));
    }
    let seen = body_for(words, office, body);
    check_report::fit_to_saw(room, words, reals, seen, faces, edges)
}
