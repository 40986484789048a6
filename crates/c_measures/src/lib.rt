// Inner: boxes, volumes, splits and reports as a C program asks for them: the answer's number, and its values in lent slots, which a refusal leaves as they were.
#![tactic(auto)]

ghost use Rattle.std.specs.Prelude.{◌≡◌, [], ◌∷◌, length, replicate};
ghost use Rattle.meaning.specs.Faults.{sawing};
ghost use Rattle.memory_layout.specs.Names.{EDGES, VERTICES};
ghost use Rattle.memory_layout.specs.Layout.{word};
ghost use Rattle.memory_writes.specs.Put.{unless_refused};
ghost use Rattle.meaning.specs.Offices.{body_for};
ghost use Rattle.check_report.specs.Calls.{asked};
ghost use Rattle.office_measures.specs.Answers.{office_box_number, office_volume_number, office_check_number, office_faults};
ghost use Rattle.split_place.specs.SplitNumber.{office_split_number};
ghost use Rattle.split_edge.specs.After.{office_split_words, office_split_reals};
ghost use Rattle.c_lent.specs.Lent.{lent, held};
ghost use Rattle.c_answers.specs.Values.{wanted};
ghost use Rattle.c_measures.specs.Measures.{box_value, volume_value, report_value, fit_value};

use c_answers::{put_box, put_counts, put_fit, put_split, put_volume};
use office_measures::{body_bounding_box, body_volume, check_body, fit_to_saw};
use split_edge::split_line_edge;

// The two corners of a body's box.
pub fn box_of(
    room: &[usize; 10],
    words: &[u32],
    reals: &[f64],
    office: u32,
    body: usize,
    faces: &mut [u8],
    edges: &mut [u8],
    vertices: &mut [u8],
    value: &mut [f64; 6],
) -> u32
    ensures answer { result ≡ lent office_box_number room words reals office body faces.old edges.old vertices.old }
    ensures slots { value.new ≡ unless_refused result (box_value (held room words reals) (body_for (held room words reals) office body)) value.old }
    ensures faces { faces.new ≡ replicate (length faces.old) 0 }
    ensures edges { edges.new ≡ replicate (length edges.old) 0 }
    ensures vertices { vertices.new ≡ replicate (length vertices.old) 0 }
{
    let answer = body_bounding_box(room, words, reals, office, body, faces, edges, vertices);
    put_box(answer, value)
}

pub fn volume_of(
    room: &[usize; 10],
    words: &[u32],
    reals: &[f64],
    office: u32,
    body: usize,
    faces: &mut [u8],
    value: &mut [f64; 1],
) -> u32
    ensures answer { result ≡ lent office_volume_number room words reals office body faces.old }
    ensures slots { value.new ≡ unless_refused result (volume_value (held room words reals) (body_for (held room words reals) office body)) value.old }
    ensures faces { faces.new ≡ replicate (length faces.old) 0 }
{
    let answer = body_volume(room, words, reals, office, body, faces);
    put_volume(answer, value)
}

// Splits an edge: it, the new edge and the new vertex.
pub fn split_of(
    room: &[usize; 10],
    words: &mut [u32],
    reals: &mut [f64],
    office: u32,
    edge: usize,
    fraction: f64,
    value: &mut [u32; 3],
) -> u32
    ensures answer { result ≡ office_split_number room.now words.old reals.old office edge fraction }
    ensures slots { value.new ≡ unless_refused result (edge ∷ word words.old EDGES ∷ word words.old VERTICES ∷ []) value.old }
    ensures tables { words.new ≡ office_split_words room.now words.old reals.old office edge fraction }
    ensures floats { reals.new ≡ office_split_reals room.now words.old reals.old office edge fraction }
{
    let answer = split_line_edge(room, words, reals, office, edge, fraction);
    put_split(answer, value)
}

// Checks a body, with geometry where that number is not 0: the counts, and the faults that are kept, four words each.
pub fn report_of(
    room: &[usize; 10],
    words: &[u32],
    reals: &[f64],
    office: u32,
    body: usize,
    geometry: u32,
    samples: usize,
    faces: &mut [u8],
    edges: &mut [u8],
    nums: &mut [u32],
    value: &mut [usize; 3],
) -> u32
    ensures answer { result ≡ lent office_check_number room words reals office body (asked (wanted geometry) samples) faces.old edges.old }
    ensures slots { value.new ≡ unless_refused result (lent report_value room words reals (body_for (held room words reals) office body) (asked (wanted geometry) samples) nums.old) value.old }
    ensures list { nums.new ≡ lent office_faults room words reals office body (asked (wanted geometry) samples) faces.old edges.old nums.old }
    ensures faces { faces.new ≡ replicate (length faces.old) 0 }
    ensures edges { edges.new ≡ replicate (length edges.old) 0 }
{
    let answer = check_body(
        room,
        words,
        reals,
        office,
        body,
        geometry != 0,
        samples,
        faces,
        edges,
        nums,
    );
    put_counts(answer, value)
}

// 1 where the body is fit to saw, else 0.
pub fn fit_of(
    room: &[usize; 10],
    words: &[u32],
    reals: &[f64],
    office: u32,
    body: usize,
    faces: &mut [u8],
    edges: &mut [u8],
    value: &mut [u32; 1],
) -> u32
    ensures answer { result ≡ lent office_check_number room words reals office body sawing faces.old edges.old }
    ensures slots { value.new ≡ unless_refused result (fit_value (held room words reals) (body_for (held room words reals) office body)) value.old }
    ensures faces { faces.new ≡ replicate (length faces.old) 0 }
    ensures edges { edges.new ≡ replicate (length edges.old) 0 }
{
    let answer = fit_to_saw(room, words, reals, office, body, faces, edges);
    put_fit(answer, value)
}
