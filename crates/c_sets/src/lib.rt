// Inner: other fields in a record, as a C program's numbers; its lists are kept. A tag that is none gives 1, right after 9.
#![tactic(auto)]

ghost use Rattle.memory_layout.specs.Decode.{decode};
ghost use Rattle.std.specs.Prelude.{◌≡◌, true, []};
ghost use Rattle.edit_core.specs.Answers.{edit_number, edit_words, edit_reals};
ghost use Rattle.meaning.specs.Offices.{body_for};
ghost use Rattle.c_lent.specs.Lent.{was};
ghost use Rattle.c_values.specs.Given.{body_in, region_known, carrier_known, edge_good, vertex_good, kind_given, region_given, shell_given, loop_given, edge_given, vertex_given, carrier_given, edge_own, vertex_own, carrier_own, face_known, fin_known, face_given, fin_given};
ghost use Rattle.memory_layout.specs.Names.{BODIES, REGIONS, SHELLS, LOOPS, EDGES, VERTICES, CURVES, SURFACES, FACES, FINS};

use c_values::tags::{
    body_known, carrier_known, face_known, fin_known, own_known, point_of, region_known,
};
use edit_sets::{
    set_body, set_curve, set_edge, set_face, set_fin, set_loop, set_region, set_shell, set_surface,
    set_vertex,
};
use memory_layout::names::{
    AT_BODY_KIND, AT_EDGE_CURVE, AT_EDGE_END, AT_EDGE_START, AT_EDGE_TOLERANCE, AT_FACE_BACK,
    AT_FACE_FRONT, AT_FACE_SENSE, AT_FACE_SURFACE, AT_FIN_EDGE, AT_FIN_LOOP, AT_FIN_PCURVE,
    AT_FIN_SENSE, AT_LOOP_FACE, AT_REGION_BODY, AT_REGION_SOLID, AT_SHELL_REGION,
    AT_VERTEX_TOLERANCE, FLOAT_EDGE_TOLERANCE, FLOAT_VERTEX_TOLERANCE,
};
use memory_readable::unknown_tag;
use memory_records::records::{carrier_of, kind_of, ref_at, sense_of, tolerance_of};

pub fn face(
    room: &[usize; 10],
    words: &mut [u32],
    reals: &mut [f64],
    id: usize,
    value: &[u32; 7],
) -> u32
    ensures answer { result ≡ edit_number room.now words.old reals.old (face_known (was value)) FACES id }
    ensures tables { words.new ≡ edit_words room.now words.old reals.old (face_known (was value)) FACES id 0 (face_given (was value)) }
    ensures floats { reals.new ≡ edit_reals room.now words.old reals.old (face_known (was value)) FACES id [] }
{
    if !face_known(value) {
        return unknown_tag(room, &words[..], &reals[..]);
    }
    let front = ref_at(value, AT_FACE_FRONT);
    let back = ref_at(value, AT_FACE_BACK);
    let surface = ref_at(value, AT_FACE_SURFACE);
    let sense = sense_of(value[AT_FACE_SENSE]);
    set_face(room, words, reals, id, front, back, surface, sense)
}

pub fn fin(
    room: &[usize; 10],
    words: &mut [u32],
    reals: &mut [f64],
    id: usize,
    value: &[u32; 4],
) -> u32
    ensures answer { result ≡ edit_number room.now words.old reals.old (fin_known (was value)) FINS id }
    ensures tables { words.new ≡ edit_words room.now words.old reals.old (fin_known (was value)) FINS id 0 (fin_given (was value)) }
    ensures floats { reals.new ≡ edit_reals room.now words.old reals.old (fin_known (was value)) FINS id [] }
{
    if !fin_known(value) {
        return unknown_tag(room, &words[..], &reals[..]);
    }
    let sense = sense_of(value[AT_FIN_SENSE]);
    set_fin(
        room,
        words,
        reals,
        id,
        value[AT_FIN_LOOP],
        value[AT_FIN_EDGE],
        sense,
        value[AT_FIN_PCURVE] != 0,
    )
}

pub fn body(
    room: &[usize; 10],
    words: &mut [u32],
    reals: &mut [f64],
    office: u32,
    id: usize,
    value: &[u32; 1],
) -> u32
    ensures answer { result ≡ edit_number room.now words.old reals.old (body_in office (was value)) BODIES (body_for (decode room.now words.old reals.old) office id) }
    ensures tables { words.new ≡ edit_words room.now words.old reals.old (body_in office (was value)) BODIES (body_for (decode room.now words.old reals.old) office id) 0 (kind_given (was value)) }
    ensures floats { reals.new ≡ edit_reals room.now words.old reals.old (body_in office (was value)) BODIES (body_for (decode room.now words.old reals.old) office id) [] }
{
    if !body_known(value) {
        return unknown_tag(room, &words[..], &reals[..]);
    }
    let kind = kind_of(value[AT_BODY_KIND]);
    set_body(room, words, reals, office, id, kind)
}

pub fn region(
    room: &[usize; 10],
    words: &mut [u32],
    reals: &mut [f64],
    id: usize,
    value: &[u32; 2],
) -> u32
    ensures answer { result ≡ edit_number room.now words.old reals.old (region_known (was value)) REGIONS id }
    ensures tables { words.new ≡ edit_words room.now words.old reals.old (region_known (was value)) REGIONS id 0 (region_given (was value)) }
    ensures floats { reals.new ≡ edit_reals room.now words.old reals.old (region_known (was value)) REGIONS id [] }
{
    if !region_known(value) {
        return unknown_tag(room, &words[..], &reals[..]);
    }
    set_region(
        room,
        words,
        reals,
        id,
        value[AT_REGION_BODY],
        value[AT_REGION_SOLID] != 0,
    )
}

pub fn shell(
    room: &[usize; 10],
    words: &mut [u32],
    reals: &mut [f64],
    id: usize,
    value: &[u32; 1],
) -> u32
    ensures answer { result ≡ edit_number room.now words.old reals.old true SHELLS id }
    ensures tables { words.new ≡ edit_words room.now words.old reals.old true SHELLS id 0 (shell_given (was value)) }
    ensures floats { reals.new ≡ edit_reals room.now words.old reals.old true SHELLS id [] }
{
    set_shell(room, words, reals, id, value[AT_SHELL_REGION])
}

pub fn loop_(
    room: &[usize; 10],
    words: &mut [u32],
    reals: &mut [f64],
    id: usize,
    value: &[u32; 1],
) -> u32
    ensures answer { result ≡ edit_number room.now words.old reals.old true LOOPS id }
    ensures tables { words.new ≡ edit_words room.now words.old reals.old true LOOPS id 0 (loop_given (was value)) }
    ensures floats { reals.new ≡ edit_reals room.now words.old reals.old true LOOPS id [] }
{
    set_loop(room, words, reals, id, value[AT_LOOP_FACE])
}

pub fn edge(
    room: &[usize; 10],
    words: &mut [u32],
    reals: &mut [f64],
    id: usize,
    value: &[u32; 7],
    floats: &[f64; 1],
) -> u32
    ensures answer { result ≡ edit_number room.now words.old reals.old (edge_good (was value) (was floats)) EDGES id }
    ensures tables { words.new ≡ edit_words room.now words.old reals.old (edge_good (was value) (was floats)) EDGES id 0 (edge_given (was value) (was floats)) }
    ensures floats { reals.new ≡ edit_reals room.now words.old reals.old (edge_good (was value) (was floats)) EDGES id (edge_own (was value) (was floats)) }
{
    if !face_known(value) {
        return unknown_tag(room, &words[..], &reals[..]);
    }
    let start = ref_at(value, AT_EDGE_START);
    let end = ref_at(value, AT_EDGE_END);
    let curve = ref_at(value, AT_EDGE_CURVE);
    let tolerance = tolerance_of(value[AT_EDGE_TOLERANCE], floats[FLOAT_EDGE_TOLERANCE]);
    set_edge(room, words, reals, id, start, end, curve, tolerance)
}

pub fn vertex(
    room: &[usize; 10],
    words: &mut [u32],
    reals: &mut [f64],
    id: usize,
    value: &[u32; 1],
    floats: &[f64; 4],
) -> u32
    ensures answer { result ≡ edit_number room.now words.old reals.old (vertex_good (was value) (was floats)) VERTICES id }
    ensures tables { words.new ≡ edit_words room.now words.old reals.old (vertex_good (was value) (was floats)) VERTICES id 0 (vertex_given (was value) (was floats)) }
    ensures floats { reals.new ≡ edit_reals room.now words.old reals.old (vertex_good (was value) (was floats)) VERTICES id (vertex_own (was value) (was floats)) }
{
    if !own_known(value) {
        return unknown_tag(room, &words[..], &reals[..]);
    }
    let point = point_of(floats);
    let tolerance = tolerance_of(value[AT_VERTEX_TOLERANCE], floats[FLOAT_VERTEX_TOLERANCE]);
    set_vertex(room, words, reals, id, point, tolerance)
}

pub fn curve(
    room: &[usize; 10],
    words: &mut [u32],
    reals: &mut [f64],
    id: usize,
    value: &[u32; 1],
    floats: &[f64; 6],
) -> u32
    ensures answer { result ≡ edit_number room.now words.old reals.old (carrier_known (was value)) CURVES id }
    ensures tables { words.new ≡ edit_words room.now words.old reals.old (carrier_known (was value)) CURVES id 0 (carrier_given (was value) (was floats)) }
    ensures floats { reals.new ≡ edit_reals room.now words.old reals.old (carrier_known (was value)) CURVES id (carrier_own (was value) (was floats)) }
{
    if !carrier_known(value) {
        return unknown_tag(room, &words[..], &reals[..]);
    }
    let carrier = carrier_of(value, floats);
    set_curve(room, words, reals, id, carrier)
}

pub fn surface(
    room: &[usize; 10],
    words: &mut [u32],
    reals: &mut [f64],
    id: usize,
    value: &[u32; 1],
    floats: &[f64; 6],
) -> u32
    ensures answer { result ≡ edit_number room.now words.old reals.old (carrier_known (was value)) SURFACES id }
    ensures tables { words.new ≡ edit_words room.now words.old reals.old (carrier_known (was value)) SURFACES id 0 (carrier_given (was value) (was floats)) }
    ensures floats { reals.new ≡ edit_reals room.now words.old reals.old (carrier_known (was value)) SURFACES id (carrier_own (was value) (was floats)) }
{
    if !carrier_known(value) {
        return unknown_tag(room, &words[..], &reals[..]);
    }
    let carrier = carrier_of(value, floats);
    set_surface(room, words, reals, id, carrier)
}
