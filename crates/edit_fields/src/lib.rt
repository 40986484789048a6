// Inner: the fields of a record, as words and floats.
#![tactic(auto)]

ghost use Rattle.std.specs.Prelude.{◌≡◌};
ghost use Rattle.edit_fields.specs.Fields.{body_fields, kind_fields, region_fields, shell_fields, face_fields, loop_fields, fin_fields, edge_fields, vertex_fields, carrier_fields, edge_floats, vertex_floats, six, carrier_floats};

use edit_tags::{
    carrier_tag, kind_tag, mark, ref_id, ref_tag, sense_tag, tolerance_float, tolerance_tag,
};
use float_vectors::vector::{Point3, Vec3};
use geom_carriers::Carrier;
use geom_lines_planes::tolerance::Tolerance;
use memory_records::records::{BodyKind, Sense};

pub fn body_fields(kind: BodyKind, office: u32) -> [u32; 2]
    ensures { result ≡ body_fields kind office }
{
    [kind_tag(kind), office]
}

// A set keeps the office.
pub fn kind_fields(kind: BodyKind) -> [u32; 1]
    ensures { result ≡ kind_fields kind }
{
    [kind_tag(kind)]
}

pub fn region_fields(body: u32, solid: bool) -> [u32; 2]
    ensures { result ≡ region_fields body solid }
{
    [body, mark(solid)]
}

pub fn face_fields(
    front: Option<u32>,
    back: Option<u32>,
    surface: Option<u32>,
    sense: Sense,
) -> [u32; 7]
    ensures { result ≡ face_fields front back surface sense }
{
    [
        ref_tag(front),
        ref_id(front),
        ref_tag(back),
        ref_id(back),
        ref_tag(surface),
        ref_id(surface),
        sense_tag(sense),
    ]
}

pub fn fin_fields(owner: u32, edge: u32, sense: Sense, pcurve: bool) -> [u32; 4]
    ensures { result ≡ fin_fields owner edge sense pcurve }
{
    [owner, edge, sense_tag(sense), mark(pcurve)]
}

pub fn edge_fields(
    start: Option<u32>,
    end: Option<u32>,
    curve: Option<u32>,
    tolerance: Tolerance,
) -> [u32; 7]
    ensures { result ≡ edge_fields start end curve tolerance }
{
    [
        ref_tag(start),
        ref_id(start),
        ref_tag(end),
        ref_id(end),
        ref_tag(curve),
        ref_id(curve),
        tolerance_tag(tolerance),
    ]
}

pub fn edge_floats(tolerance: Tolerance) -> [f64; 1]
    ensures { result ≡ edge_floats tolerance }
{
    [tolerance_float(tolerance)]
}

pub fn vertex_fields(tolerance: Tolerance) -> [u32; 1]
    ensures { result ≡ vertex_fields tolerance }
{
    [tolerance_tag(tolerance)]
}

pub fn vertex_floats(point: Point3, tolerance: Tolerance) -> [f64; 4]
    ensures { result ≡ vertex_floats point tolerance }
{
    [point.x, point.y, point.z, tolerance_float(tolerance)]
}

pub fn carrier_fields(carrier: Carrier) -> [u32; 1]
    ensures { result ≡ carrier_fields carrier }
{
    [carrier_tag(carrier)]
}

// A point, then a vector.
fn six(p: Point3, v: Vec3) -> [f64; 6]
    ensures { result ≡ six p v }
{
    [p.x, p.y, p.z, v.x, v.y, v.z]
}

pub fn carrier_floats(carrier: Carrier) -> [f64; 6]
    ensures { result ≡ carrier_floats carrier }
{
    match carrier {
        Carrier::Line(line) => six(line.origin, line.direction),
        Carrier::Plane(plane) => six(plane.origin, plane.normal),
        Carrier::Other => [0.0; 6],
    }
}
