// The fields of a record as a C program hands them over: the numbers of `values`, without the lists. `specs/Given.antt`
// says which fields they name.
ghost use Rattle.std.specs.Prelude.{◌≡◌, ◌<◌};
ghost use Rattle.memory_layout.specs.Names.{FLOAT_VERTEX_POINT};
ghost use Rattle.memory_layout.specs.Decode.{point_at};
ghost use Rattle.c_lent.specs.Lent.{was};
ghost use Rattle.c_values.specs.Given.{body_known, region_known, face_known, fin_known, own_known, carrier_known, entity_of};

use float_vectors::vector::Point3;
use memory_contains::EntityRef;
use memory_layout::names::{
    AT_BODY_KIND, AT_CARRIER_TAG, AT_FACE_BACK, AT_FACE_FRONT, AT_FACE_SENSE, AT_FACE_SURFACE,
    AT_FIN_PCURVE, AT_FIN_SENSE, AT_REGION_SOLID, AT_VERTEX_TOLERANCE,
};

pub fn body_known(value: &[u32; 1]) -> bool
    ensures { result ≡ body_known (was value) }
{
    value[AT_BODY_KIND] <= 4
}

pub fn region_known(value: &[u32; 2]) -> bool
    ensures { result ≡ region_known (was value) }
{
    value[AT_REGION_SOLID] <= 1
}

// The tags of three optional ids and a sense or a tolerance.
pub fn face_known(value: &[u32; 7]) -> bool
    ensures { result ≡ face_known (was value) }
{
    (value[AT_FACE_FRONT] <= 1)
        & (value[AT_FACE_BACK] <= 1)
        & (value[AT_FACE_SURFACE] <= 1)
        & (value[AT_FACE_SENSE] <= 1)
}

pub fn fin_known(value: &[u32; 4]) -> bool
    ensures { result ≡ fin_known (was value) }
{
    (value[AT_FIN_SENSE] <= 1) & (value[AT_FIN_PCURVE] <= 1)
}

// The tag of a vertex's tolerance.
pub fn own_known(value: &[u32; 1]) -> bool
    ensures { result ≡ own_known (was value) }
{
    value[AT_VERTEX_TOLERANCE] <= 1
}

pub fn carrier_known(value: &[u32; 1]) -> bool
    ensures { result ≡ carrier_known (was value) }
{
    value[AT_CARRIER_TAG] <= 2
}

pub fn point_of(floats: &[f64; 4]) -> Point3
    ensures { result ≡ point_at (was floats) FLOAT_VERTEX_POINT }
{
    Point3 {
        x: floats[0],
        y: floats[1],
        z: floats[2],
    }
}

// One of the first four classes.
fn upper_entity(class: u32, id: usize) -> EntityRef
    requires { class < 4 }
    ensures { result ≡ entity_of class id }
{
    match class {
        0 => EntityRef::Body(id),
        1 => EntityRef::Region(id),
        2 => EntityRef::Shell(id),
        _ => EntityRef::Face(id),
    }
}

// An entity by its class, which is the number of its table.
pub fn entity_of(class: u32, id: usize) -> EntityRef
    ensures { result ≡ entity_of class id }
{
    if class < 4 {
        return upper_entity(class, id);
    }
    match class {
        4 => EntityRef::Loop(id),
        5 => EntityRef::Fin(id),
        6 => EntityRef::Edge(id),
        _ => EntityRef::Vertex(id),
    }
}
