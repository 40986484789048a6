// For callers: other fields in a record, its lists kept, and a body's office. 0, or 9; 1 for an office above 1, or a tolerance that no record may have; 2 for a missing record. Inner: `set_fields`.
#![tactic(auto)]

ghost use Rattle.std.specs.Prelude.{◌≡◌, true, [], ◌∷◌, leb};
ghost use Rattle.meaning.specs.Edits.{tolerance_ok};
ghost use Rattle.memory_offices.specs.Sight.{body_asked};
ghost use Rattle.edit_core.specs.Answers.{edit_number, edit_words, edit_reals};
ghost use Rattle.edit_fields.specs.Fields.{kind_fields, region_fields, face_fields, fin_fields, edge_fields, vertex_fields, carrier_fields, edge_floats, vertex_floats, carrier_floats, shell_fields, loop_fields};
ghost use Rattle.memory_layout.specs.Names.{BODIES, REGIONS, FACES, FINS, EDGES, VERTICES, CURVES, SURFACES, SHELLS, LOOPS, AT_FIN_PCURVE};
ghost use Rattle.edit_core.specs.Facts.{Fields};
ghost use Rattle.edit_tags.specs.Tags.{mark};

use edit_core::edit;
use edit_fields::{
    carrier_fields, carrier_floats, edge_fields, edge_floats, face_fields, fin_fields, kind_fields,
    region_fields, vertex_fields, vertex_floats,
};
use edit_tags::tolerance_ok;
use float_vectors::vector::Point3;
use geom_carriers::Carrier;
use geom_lines_planes::tolerance::Tolerance;
use memory_layout::names::{
    AT_FIN_PCURVE, BODIES, CURVES, EDGES, FACES, FINS, LOOPS, REGIONS, SHELLS, SURFACES, VERTICES,
};
use memory_offices::body_for;
use memory_records::records::{BodyKind, Sense};

// In a table without floats, from place p of the record on.
pub fn set_fields(
    room: &[usize; 10],
    words: &mut [u32],
    reals: &mut [f64],
    k: usize,
    id: usize,
    p: usize,
    fields: &[u32],
) -> u32
    requires { Fields k p fields.now [] }
    ensures answer { result ≡ edit_number room.now words.old reals.old true k id }
    ensures tables { words.new ≡ edit_words room.now words.old reals.old true k id p fields.now }
    ensures floats { reals.new ≡ edit_reals room.now words.old reals.old true k id [] }
{
    let none: [f64; 0] = [];
    edit(room, words, reals, true, k, id, p, fields, &none)
}

pub fn set_shell(
    room: &[usize; 10],
    words: &mut [u32],
    reals: &mut [f64],
    id: usize,
    region: u32,
) -> u32
    ensures answer { result ≡ edit_number room.now words.old reals.old true SHELLS id }
    ensures tables { words.new ≡ edit_words room.now words.old reals.old true SHELLS id 0 (shell_fields region) }
    ensures floats { reals.new ≡ edit_reals room.now words.old reals.old true SHELLS id [] }
{
    let fields = [region];
    set_fields(room, words, reals, SHELLS, id, 0, &fields)
}

pub fn set_loop(
    room: &[usize; 10],
    words: &mut [u32],
    reals: &mut [f64],
    id: usize,
    face: u32,
) -> u32
    ensures answer { result ≡ edit_number room.now words.old reals.old true LOOPS id }
    ensures tables { words.new ≡ edit_words room.now words.old reals.old true LOOPS id 0 (loop_fields face) }
    ensures floats { reals.new ≡ edit_reals room.now words.old reals.old true LOOPS id [] }
{
    let fields = [face];
    set_fields(room, words, reals, LOOPS, id, 0, &fields)
}

// The mark of a fin that has a pcurve; its other fields are kept.
pub fn set_fin_geometry(room: &[usize; 10], words: &mut [u32], reals: &mut [f64], id: usize) -> u32
    ensures answer { result ≡ edit_number room.now words.old reals.old true FINS id }
    ensures tables { words.new ≡ edit_words room.now words.old reals.old true FINS id AT_FIN_PCURVE (mark true ∷ []) }
    ensures floats { reals.new ≡ edit_reals room.now words.old reals.old true FINS id [] }
{
    let fields = [1];
    set_fields(room, words, reals, FINS, id, AT_FIN_PCURVE, &fields)
}

// The kind of a body, as an office sees it (W-206); it stays with that office.
pub fn set_body(
    room: &[usize; 10],
    words: &mut [u32],
    reals: &mut [f64],
    office: u32,
    id: usize,
    kind: BodyKind,
) -> u32
    ensures answer { result ≡ edit_number room.now words.old reals.old (leb office 1) BODIES (body_asked room.now words.old reals.old office id) }
    ensures tables { words.new ≡ edit_words room.now words.old reals.old (leb office 1) BODIES (body_asked room.now words.old reals.old office id) 0 (kind_fields kind) }
    ensures floats { reals.new ≡ edit_reals room.now words.old reals.old (leb office 1) BODIES (body_asked room.now words.old reals.old office id) [] }
{
    let fields = kind_fields(kind);
    let none: [f64; 0] = [];
    let seen = body_for(&words[..], office, id);
    edit(
        room,
        words,
        reals,
        office <= 1,
        BODIES,
        seen,
        0,
        &fields,
        &none,
    )
}

pub fn set_region(
    room: &[usize; 10],
    words: &mut [u32],
    reals: &mut [f64],
    id: usize,
    body: u32,
    solid: bool,
) -> u32
    ensures answer { result ≡ edit_number room.now words.old reals.old true REGIONS id }
    ensures tables { words.new ≡ edit_words room.now words.old reals.old true REGIONS id 0 (region_fields body solid) }
    ensures floats { reals.new ≡ edit_reals room.now words.old reals.old true REGIONS id [] }
{
    let fields = region_fields(body, solid);
    set_fields(room, words, reals, REGIONS, id, 0, &fields)
}

pub fn set_face(
    room: &[usize; 10],
    words: &mut [u32],
    reals: &mut [f64],
    id: usize,
    front: Option<u32>,
    back: Option<u32>,
    surface: Option<u32>,
    sense: Sense,
) -> u32
    ensures answer { result ≡ edit_number room.now words.old reals.old true FACES id }
    ensures tables { words.new ≡ edit_words room.now words.old reals.old true FACES id 0 (face_fields front back surface sense) }
    ensures floats { reals.new ≡ edit_reals room.now words.old reals.old true FACES id [] }
{
    let fields = face_fields(front, back, surface, sense);
    set_fields(room, words, reals, FACES, id, 0, &fields)
}

pub fn set_fin(
    room: &[usize; 10],
    words: &mut [u32],
    reals: &mut [f64],
    id: usize,
    owner: u32,
    edge: u32,
    sense: Sense,
    pcurve: bool,
) -> u32
    ensures answer { result ≡ edit_number room.now words.old reals.old true FINS id }
    ensures tables { words.new ≡ edit_words room.now words.old reals.old true FINS id 0 (fin_fields owner edge sense pcurve) }
    ensures floats { reals.new ≡ edit_reals room.now words.old reals.old true FINS id [] }
{
    let fields = fin_fields(owner, edge, sense, pcurve);
    set_fields(room, words, reals, FINS, id, 0, &fields)
}

pub fn set_edge(
    room: &[usize; 10],
    words: &mut [u32],
    reals: &mut [f64],
    id: usize,
    start: Option<u32>,
    end: Option<u32>,
    curve: Option<u32>,
    tolerance: Tolerance,
) -> u32
    ensures answer { result ≡ edit_number room.now words.old reals.old (tolerance_ok tolerance) EDGES id }
    ensures tables { words.new ≡ edit_words room.now words.old reals.old (tolerance_ok tolerance) EDGES id 0 (edge_fields start end curve tolerance) }
    ensures floats { reals.new ≡ edit_reals room.now words.old reals.old (tolerance_ok tolerance) EDGES id (edge_floats tolerance) }
{
    let fields = edge_fields(start, end, curve, tolerance);
    let floats = edge_floats(tolerance);
    edit(
        room,
        words,
        reals,
        tolerance_ok(tolerance),
        EDGES,
        id,
        0,
        &fields,
        &floats,
    )
}

pub fn set_vertex(
    room: &[usize; 10],
    words: &mut [u32],
    reals: &mut [f64],
    id: usize,
    point: Point3,
    tolerance: Tolerance,
) -> u32
    ensures answer { result ≡ edit_number room.now words.old reals.old (tolerance_ok tolerance) VERTICES id }
    ensures tables { words.new ≡ edit_words room.now words.old reals.old (tolerance_ok tolerance) VERTICES id 0 (vertex_fields tolerance) }
    ensures floats { reals.new ≡ edit_reals room.now words.old reals.old (tolerance_ok tolerance) VERTICES id (vertex_floats point tolerance) }
{
    let fields = vertex_fields(tolerance);
    let floats = vertex_floats(point, tolerance);
    edit(
        room,
        words,
        reals,
        tolerance_ok(tolerance),
        VERTICES,
        id,
        0,
        &fields,
        &floats,
    )
}

pub fn set_curve(
    room: &[usize; 10],
    words: &mut [u32],
    reals: &mut [f64],
    id: usize,
    carrier: Carrier,
) -> u32
    ensures answer { result ≡ edit_number room.now words.old reals.old true CURVES id }
    ensures tables { words.new ≡ edit_words room.now words.old reals.old true CURVES id 0 (carrier_fields carrier) }
    ensures floats { reals.new ≡ edit_reals room.now words.old reals.old true CURVES id (carrier_floats carrier) }
{
    let fields = carrier_fields(carrier);
    let floats = carrier_floats(carrier);
    edit(room, words, reals, true, CURVES, id, 0, &fields, &floats)
}

pub fn set_surface(
    room: &[usize; 10],
    words: &mut [u32],
    reals: &mut [f64],
    id: usize,
    carrier: Carrier,
) -> u32
    ensures answer { result ≡ edit_number room.now words.old reals.old true SURFACES id }
    ensures tables { words.new ≡ edit_words room.now words.old reals.old true SURFACES id 0 (carrier_fields carrier) }
    ensures floats { reals.new ≡ edit_reals room.now words.old reals.old true SURFACES id (carrier_floats carrier) }
{
    let fields = carrier_fields(carrier);
    let floats = carrier_floats(carrier);
    edit(room, words, reals, true, SURFACES, id, 0, &fields, &floats)
}
