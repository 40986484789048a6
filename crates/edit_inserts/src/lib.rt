// For callers: a record more, with empty lists, a body in the office that makes it. Its id, or 9; 1 for an office above 1, or a tolerance that no record may have; 8 for
// no slot. No reference is checked. Inner: `insert_fields`.
#![tactic(auto)]

ghost use Rattle.std.specs.Prelude.{◌≡◌, true, [], leb};
ghost use Rattle.meaning.specs.Edits.{tolerance_ok};
ghost use Rattle.edit_core.specs.Answers.{insert_answer, insert_words, insert_reals};
ghost use Rattle.edit_fields.specs.Fields.{body_fields, region_fields, face_fields, fin_fields, edge_fields, vertex_fields, carrier_fields, edge_floats, vertex_floats, carrier_floats, shell_fields, loop_fields};
ghost use Rattle.memory_layout.specs.Names.{BODIES, REGIONS, FACES, FINS, EDGES, VERTICES, CURVES, SURFACES, SHELLS, LOOPS};
ghost use Rattle.edit_core.specs.Facts.{Fields};

use edit_core::{Inserted, insert};
use edit_fields::{
    body_fields, carrier_fields, carrier_floats, edge_fields, edge_floats, face_fields, fin_fields,
    region_fields, vertex_fields, vertex_floats,
};
use edit_tags::tolerance_ok;
use float_vectors::vector::Point3;
use geom_carriers::Carrier;
use geom_lines_planes::tolerance::Tolerance;
use memory_layout::names::{
    BODIES, CURVES, EDGES, FACES, FINS, LOOPS, REGIONS, SHELLS, SURFACES, VERTICES,
};
use memory_records::records::{BodyKind, Sense};

// Into a table without floats.
pub fn insert_fields(
    room: &[usize; 10],
    words: &mut [u32],
    reals: &mut [f64],
    k: usize,
    fields: &[u32],
) -> Inserted
    requires { Fields k 0 fields.now [] }
    ensures answer { result ≡ insert_answer room.now words.old reals.old true k }
    ensures tables { words.new ≡ insert_words room.now words.old reals.old true k fields.now }
    ensures floats { reals.new ≡ insert_reals room.now words.old reals.old true k [] }
{
    let none: [f64; 0] = [];
    insert(room, words, reals, true, k, fields, &none)
}

pub fn insert_shell(
    room: &[usize; 10],
    words: &mut [u32],
    reals: &mut [f64],
    region: u32,
) -> Inserted
    ensures answer { result ≡ insert_answer room.now words.old reals.old true SHELLS }
    ensures tables { words.new ≡ insert_words room.now words.old reals.old true SHELLS (shell_fields region) }
    ensures floats { reals.new ≡ insert_reals room.now words.old reals.old true SHELLS [] }
{
    let fields = [region];
    insert_fields(room, words, reals, SHELLS, &fields)
}

pub fn insert_loop(room: &[usize; 10], words: &mut [u32], reals: &mut [f64], face: u32) -> Inserted
    ensures answer { result ≡ insert_answer room.now words.old reals.old true LOOPS }
    ensures tables { words.new ≡ insert_words room.now words.old reals.old true LOOPS (loop_fields face) }
    ensures floats { reals.new ≡ insert_reals room.now words.old reals.old true LOOPS [] }
{
    let fields = [face];
    insert_fields(room, words, reals, LOOPS, &fields)
}

// Into the office that is named (W-206).
pub fn insert_body(
    room: &[usize; 10],
    words: &mut [u32],
    reals: &mut [f64],
    office: u32,
    kind: BodyKind,
) -> Inserted
    ensures answer { result ≡ insert_answer room.now words.old reals.old (leb office 1) BODIES }
    ensures tables { words.new ≡ insert_words room.now words.old reals.old (leb office 1) BODIES (body_fields kind office) }
    ensures floats { reals.new ≡ insert_reals room.now words.old reals.old (leb office 1) BODIES [] }
{
    let fields = body_fields(kind, office);
    let none: [f64; 0] = [];
    insert(room, words, reals, office <= 1, BODIES, &fields, &none)
}

pub fn insert_region(
    room: &[usize; 10],
    words: &mut [u32],
    reals: &mut [f64],
    body: u32,
    solid: bool,
) -> Inserted
    ensures answer { result ≡ insert_answer room.now words.old reals.old true REGIONS }
    ensures tables { words.new ≡ insert_words room.now words.old reals.old true REGIONS (region_fields body solid) }
    ensures floats { reals.new ≡ insert_reals room.now words.old reals.old true REGIONS [] }
{
    let fields = region_fields(body, solid);
    insert_fields(room, words, reals, REGIONS, &fields)
}

pub fn insert_face(
    room: &[usize; 10],
    words: &mut [u32],
    reals: &mut [f64],
    front: Option<u32>,
    back: Option<u32>,
    surface: Option<u32>,
    sense: Sense,
) -> Inserted
    ensures answer { result ≡ insert_answer room.now words.old reals.old true FACES }
    ensures tables { words.new ≡ insert_words room.now words.old reals.old true FACES (face_fields front back surface sense) }
    ensures floats { reals.new ≡ insert_reals room.now words.old reals.old true FACES [] }
{
    let fields = face_fields(front, back, surface, sense);
    insert_fields(room, words, reals, FACES, &fields)
}

pub fn insert_fin(
    room: &[usize; 10],
    words: &mut [u32],
    reals: &mut [f64],
    owner: u32,
    edge: u32,
    sense: Sense,
    pcurve: bool,
) -> Inserted
    ensures answer { result ≡ insert_answer room.now words.old reals.old true FINS }
    ensures tables { words.new ≡ insert_words room.now words.old reals.old true FINS (fin_fields owner edge sense pcurve) }
    ensures floats { reals.new ≡ insert_reals room.now words.old reals.old true FINS [] }
{
    let fields = fin_fields(owner, edge, sense, pcurve);
    insert_fields(room, words, reals, FINS, &fields)
}

pub fn insert_edge(
    room: &[usize; 10],
    words: &mut [u32],
    reals: &mut [f64],
    start: Option<u32>,
    end: Option<u32>,
    curve: Option<u32>,
    tolerance: Tolerance,
) -> Inserted
    ensures answer { result ≡ insert_answer room.now words.old reals.old (tolerance_ok tolerance) EDGES }
    ensures tables { words.new ≡ insert_words room.now words.old reals.old (tolerance_ok tolerance) EDGES (edge_fields start end curve tolerance) }
    ensures floats { reals.new ≡ insert_reals room.now words.old reals.old (tolerance_ok tolerance) EDGES (edge_floats tolerance) }
{
    let fields = edge_fields(start, end, curve, tolerance);
    let floats = edge_floats(tolerance);
    insert(
        room,
        words,
        reals,
        tolerance_ok(tolerance),
        EDGES,
        &fields,
        &floats,
    )
}

pub fn insert_vertex(
    room: &[usize; 10],
    words: &mut [u32],
    reals: &mut [f64],
    point: Point3,
    tolerance: Tolerance,
) -> Inserted
    ensures answer { result ≡ insert_answer room.now words.old reals.old (tolerance_ok tolerance) VERTICES }
    ensures tables { words.new ≡ insert_words room.now words.old reals.old (tolerance_ok tolerance) VERTICES (vertex_fields tolerance) }
    ensures floats { reals.new ≡ insert_reals room.now words.old reals.old (tolerance_ok tolerance) VERTICES (vertex_floats point tolerance) }
{
    let fields = vertex_fields(tolerance);
    let floats = vertex_floats(point, tolerance);
    insert(
        room,
        words,
        reals,
        tolerance_ok(tolerance),
        VERTICES,
        &fields,
        &floats,
    )
}

pub fn insert_curve(
    room: &[usize; 10],
    words: &mut [u32],
    reals: &mut [f64],
    carrier: Carrier,
) -> Inserted
    ensures answer { result ≡ insert_answer room.now words.old reals.old true CURVES }
    ensures tables { words.new ≡ insert_words room.now words.old reals.old true CURVES (carrier_fields carrier) }
    ensures floats { reals.new ≡ insert_reals room.now words.old reals.old true CURVES (carrier_floats carrier) }
{
    let fields = carrier_fields(carrier);
    let floats = carrier_floats(carrier);
    insert(room, words, reals, true, CURVES, &fields, &floats)
}

pub fn insert_surface(
    room: &[usize; 10],
    words: &mut [u32],
    reals: &mut [f64],
    carrier: Carrier,
) -> Inserted
    ensures answer { result ≡ insert_answer room.now words.old reals.old true SURFACES }
    ensures tables { words.new ≡ insert_words room.now words.old reals.old true SURFACES (carrier_fields carrier) }
    ensures floats { reals.new ≡ insert_reals room.now words.old reals.old true SURFACES (carrier_floats carrier) }
{
    let fields = carrier_fields(carrier);
    let floats = carrier_floats(carrier);
    insert(room, words, reals, true, SURFACES, &fields, &floats)
}
