// Inner: a record more, its fields as a C program's numbers: its id in a lent slot. A tag that is none gives 1, right after 9.
#![tactic(auto)]

ghost use Rattle.std.specs.Prelude.{◌≡◌, true, [], ◌∷◌};
ghost use Rattle.memory_layout.specs.Names.{BODIES, REGIONS, SHELLS, FACES, LOOPS, FINS, CURVES, SURFACES, EDGES, VERTICES};
ghost use Rattle.memory_layout.specs.Layout.{word};
ghost use Rattle.memory_writes.specs.Put.{unless_refused};
ghost use Rattle.edit_core.specs.Answers.{insert_number, insert_words, insert_reals};
ghost use Rattle.c_lent.specs.Lent.{was};
ghost use Rattle.c_values.specs.Given.{body_in, region_known, face_known, fin_known, carrier_known, body_given, region_given, shell_given, face_given, loop_given, fin_given, carrier_given, carrier_own, edge_good, vertex_good, edge_given, vertex_given, edge_own, vertex_own};

use c_values::put_id;
use c_values::tags::{
    body_known, carrier_known, face_known, fin_known, own_known, point_of, region_known,
};
use edit_inserts::{
    insert_body, insert_curve, insert_edge, insert_face, insert_fin, insert_loop, insert_region,
    insert_shell, insert_surface, insert_vertex,
};
use memory_layout::names::{
    AT_BODY_KIND, AT_EDGE_CURVE, AT_EDGE_END, AT_EDGE_START, AT_EDGE_TOLERANCE, AT_FACE_BACK,
    AT_FACE_FRONT, AT_FACE_SENSE, AT_FACE_SURFACE, AT_FIN_EDGE, AT_FIN_LOOP, AT_FIN_PCURVE,
    AT_FIN_SENSE, AT_LOOP_FACE, AT_REGION_BODY, AT_REGION_SOLID, AT_SHELL_REGION,
    AT_VERTEX_TOLERANCE, FLOAT_EDGE_TOLERANCE, FLOAT_VERTEX_TOLERANCE,
};
use memory_readable::unknown_tag;
use memory_records::records::{carrier_of, kind_of, ref_at, sense_of, tolerance_of};

pub fn edge(
    room: &[usize; 10],
    words: &mut [u32],
    reals: &mut [f64],
    value: &[u32; 7],
    floats: &[f64; 1],
    id: &mut [u32; 1],
) -> u32
    ensures answer { result ≡ insert_number room.now words.old reals.old (edge_good (was value) (was floats)) EDGES }
    ensures slots { id.new ≡ unless_refused result (word words.old EDGES ∷ []) id.old }
    ensures tables { words.new ≡ insert_words room.now words.old reals.old (edge_good (was value) (was floats)) EDGES (edge_given (was value) (was floats)) }
    ensures floats { reals.new ≡ insert_reals room.now words.old reals.old (edge_good (was value) (was floats)) EDGES (edge_own (was value) (was floats)) }
{
    if !face_known(value) {
        return unknown_tag(room, &words[..], &reals[..]);
    }
    let start = ref_at(value, AT_EDGE_START);
    let end = ref_at(value, AT_EDGE_END);
    let curve = ref_at(value, AT_EDGE_CURVE);
    let tolerance = tolerance_of(value[AT_EDGE_TOLERANCE], floats[FLOAT_EDGE_TOLERANCE]);
    put_id(
        insert_edge(room, words, reals, start, end, curve, tolerance),
        id,
    )
}

pub fn vertex(
    room: &[usize; 10],
    words: &mut [u32],
    reals: &mut [f64],
    value: &[u32; 1],
    floats: &[f64; 4],
    id: &mut [u32; 1],
) -> u32
    ensures answer { result ≡ insert_number room.now words.old reals.old (vertex_good (was value) (was floats)) VERTICES }
    ensures slots { id.new ≡ unless_refused result (word words.old VERTICES ∷ []) id.old }
    ensures tables { words.new ≡ insert_words room.now words.old reals.old (vertex_good (was value) (was floats)) VERTICES (vertex_given (was value) (was floats)) }
    ensures floats { reals.new ≡ insert_reals room.now words.old reals.old (vertex_good (was value) (was floats)) VERTICES (vertex_own (was value) (was floats)) }
{
    if !own_known(value) {
        return unknown_tag(room, &words[..], &reals[..]);
    }
    let point = point_of(floats);
    let tolerance = tolerance_of(value[AT_VERTEX_TOLERANCE], floats[FLOAT_VERTEX_TOLERANCE]);
    put_id(insert_vertex(room, words, reals, point, tolerance), id)
}

pub fn body(
    room: &[usize; 10],
    words: &mut [u32],
    reals: &mut [f64],
    office: u32,
    value: &[u32; 1],
    id: &mut [u32; 1],
) -> u32
    ensures answer { result ≡ insert_number room.now words.old reals.old (body_in office (was value)) BODIES }
    ensures slots { id.new ≡ unless_refused result (word words.old BODIES ∷ []) id.old }
    ensures tables { words.new ≡ insert_words room.now words.old reals.old (body_in office (was value)) BODIES (body_given office (was value)) }
    ensures floats { reals.new ≡ insert_reals room.now words.old reals.old (body_in office (was value)) BODIES [] }
{
    if !body_known(value) {
        return unknown_tag(room, &words[..], &reals[..]);
    }
    let kind = kind_of(value[AT_BODY_KIND]);
    put_id(insert_body(room, words, reals, office, kind), id)
}

pub fn region(
    room: &[usize; 10],
    words: &mut [u32],
    reals: &mut [f64],
    value: &[u32; 2],
    id: &mut [u32; 1],
) -> u32
    ensures answer { result ≡ insert_number room.now words.old reals.old (region_known (was value)) REGIONS }
    ensures slots { id.new ≡ unless_refused result (word words.old REGIONS ∷ []) id.old }
    ensures tables { words.new ≡ insert_words room.now words.old reals.old (region_known (was value)) REGIONS (region_given (was value)) }
    ensures floats { reals.new ≡ insert_reals room.now words.old reals.old (region_known (was value)) REGIONS [] }
{
    if !region_known(value) {
        return unknown_tag(room, &words[..], &reals[..]);
    }
    put_id(
        insert_region(
            room,
            words,
            reals,
            value[AT_REGION_BODY],
            value[AT_REGION_SOLID] != 0,
        ),
        id,
    )
}

pub fn shell(
    room: &[usize; 10],
    words: &mut [u32],
    reals: &mut [f64],
    value: &[u32; 1],
    id: &mut [u32; 1],
) -> u32
    ensures answer { result ≡ insert_number room.now words.old reals.old true SHELLS }
    ensures slots { id.new ≡ unless_refused result (word words.old SHELLS ∷ []) id.old }
    ensures tables { words.new ≡ insert_words room.now words.old reals.old true SHELLS (shell_given (was value)) }
    ensures floats { reals.new ≡ insert_reals room.now words.old reals.old true SHELLS [] }
{
    put_id(insert_shell(room, words, reals, value[AT_SHELL_REGION]), id)
}

pub fn face(
    room: &[usize; 10],
    words: &mut [u32],
    reals: &mut [f64],
    value: &[u32; 7],
    id: &mut [u32; 1],
) -> u32
    ensures answer { result ≡ insert_number room.now words.old reals.old (face_known (was value)) FACES }
    ensures slots { id.new ≡ unless_refused result (word words.old FACES ∷ []) id.old }
    ensures tables { words.new ≡ insert_words room.now words.old reals.old (face_known (was value)) FACES (face_given (was value)) }
    ensures floats { reals.new ≡ insert_reals room.now words.old reals.old (face_known (was value)) FACES [] }
{
    if !face_known(value) {
        return unknown_tag(room, &words[..], &reals[..]);
    }
    let front = ref_at(value, AT_FACE_FRONT);
    let back = ref_at(value, AT_FACE_BACK);
    let surface = ref_at(value, AT_FACE_SURFACE);
    let sense = sense_of(value[AT_FACE_SENSE]);
    put_id(
        insert_face(room, words, reals, front, back, surface, sense),
        id,
    )
}

pub fn loop_(
    room: &[usize; 10],
    words: &mut [u32],
    reals: &mut [f64],
    value: &[u32; 1],
    id: &mut [u32; 1],
) -> u32
    ensures answer { result ≡ insert_number room.now words.old reals.old true LOOPS }
    ensures slots { id.new ≡ unless_refused result (word words.old LOOPS ∷ []) id.old }
    ensures tables { words.new ≡ insert_words room.now words.old reals.old true LOOPS (loop_given (was value)) }
    ensures floats { reals.new ≡ insert_reals room.now words.old reals.old true LOOPS [] }
{
    put_id(insert_loop(room, words, reals, value[AT_LOOP_FACE]), id)
}

pub fn fin(
    room: &[usize; 10],
    words: &mut [u32],
    reals: &mut [f64],
    value: &[u32; 4],
    id: &mut [u32; 1],
) -> u32
    ensures answer { result ≡ insert_number room.now words.old reals.old (fin_known (was value)) FINS }
    ensures slots { id.new ≡ unless_refused result (word words.old FINS ∷ []) id.old }
    ensures tables { words.new ≡ insert_words room.now words.old reals.old (fin_known (was value)) FINS (fin_given (was value)) }
    ensures floats { reals.new ≡ insert_reals room.now words.old reals.old (fin_known (was value)) FINS [] }
{
    if !fin_known(value) {
        return unknown_tag(room, &words[..], &reals[..]);
    }
    let sense = sense_of(value[AT_FIN_SENSE]);
    put_id(
        insert_fin(
            room,
            words,
            reals,
            value[AT_FIN_LOOP],
            value[AT_FIN_EDGE],
            sense,
            value[AT_FIN_PCURVE] != 0,
        ),
        id,
    )
}

pub fn curve(
    room: &[usize; 10],
    words: &mut [u32],
    reals: &mut [f64],
    value: &[u32; 1],
    floats: &[f64; 6],
    id: &mut [u32; 1],
) -> u32
    ensures answer { result ≡ insert_number room.now words.old reals.old (carrier_known (was value)) CURVES }
    ensures slots { id.new ≡ unless_refused result (word words.old CURVES ∷ []) id.old }
    ensures tables { words.new ≡ insert_words room.now words.old reals.old (carrier_known (was value)) CURVES (carrier_given (was value) (was floats)) }
    ensures floats { reals.new ≡ insert_reals room.now words.old reals.old (carrier_known (was value)) CURVES (carrier_own (was value) (was floats)) }
{
    if !carrier_known(value) {
        return unknown_tag(room, &words[..], &reals[..]);
    }
    let carrier = carrier_of(value, floats);
    put_id(insert_curve(room, words, reals, carrier), id)
}

pub fn surface(
    room: &[usize; 10],
    words: &mut [u32],
    reals: &mut [f64],
    value: &[u32; 1],
    floats: &[f64; 6],
    id: &mut [u32; 1],
) -> u32
    ensures answer { result ≡ insert_number room.now words.old reals.old (carrier_known (was value)) SURFACES }
    ensures slots { id.new ≡ unless_refused result (word words.old SURFACES ∷ []) id.old }
    ensures tables { words.new ≡ insert_words room.now words.old reals.old (carrier_known (was value)) SURFACES (carrier_given (was value) (was floats)) }
    ensures floats { reals.new ≡ insert_reals room.now words.old reals.old (carrier_known (was value)) SURFACES (carrier_own (was value) (was floats)) }
{
    if !carrier_known(value) {
        return unknown_tag(room, &words[..], &reals[..]);
    }
    let carrier = carrier_of(value, floats);
    put_id(insert_surface(room, words, reals, carrier), id)
}
