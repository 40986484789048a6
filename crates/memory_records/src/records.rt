// The records, and what their words and floats name: kinds, senses, optional ids, tolerances, points and carriers. A list
// stands as its number of entries; `memory_lists` has the entries.
ghost use Rattle.std.specs.Prelude.{◌≡◌, ◌+◌, ◌≤◌, ◌<◌, length};
ghost use Rattle.geom_lines_planes.specs.Geometry.{effective};
ghost use Rattle.memory_layout.specs.Layout.{word, real};
ghost use Rattle.memory_layout.specs.Names.{VERSION, PRECISION, FLOAT_CARRIER_ORIGIN, FLOAT_CARRIER_DIRECTION};
ghost use Rattle.memory_layout.specs.Decode.{maybe_at, sense_of, kind_of, version_of, tolerance_of, point_at, vec_at, carrier_of};
ghost use Rattle.memory_records.specs.Seen.{seen_ref, seen_sense, seen_kind};

use float_vectors::vector::{Point3, Vec3};
use geom_carriers::Carrier;
use geom_lines_planes::curve::Line;
use geom_lines_planes::surface::Plane;
use geom_lines_planes::tolerance::{Tolerance, Version, effective_tolerance};
use memory_layout::names::{AT_CARRIER_TAG, PRECISION, VERSION};

// What a body is allowed to contain.
#[derive(Clone, Copy)]
pub enum BodyKind {
    Acorn,
    Wire,
    Sheet,
    Solid,
    General,
}

// Orientation of an entity relative to the geometry or entity that it uses.
#[derive(Clone, Copy)]
pub enum Sense {
    Positive,
    Negative,
}

#[derive(Clone, Copy)]
pub struct Body {
    pub kind: BodyKind,
    pub regions: u32,
}

#[derive(Clone, Copy)]
pub struct Region {
    pub body: u32,
    pub solid: bool,
    pub shells: u32,
}

#[derive(Clone, Copy)]
pub struct Shell {
    pub region: u32,
    pub faces: u32,
    pub wire_edges: u32,
    pub acorn_vertices: u32,
}

#[derive(Clone, Copy)]
pub struct Face {
    pub front: Option<u32>,
    pub back: Option<u32>,
    pub surface: Option<u32>,
    pub sense: Sense,
    pub loops: u32,
}

#[derive(Clone, Copy)]
pub struct Loop {
    pub face: u32,
    pub fins: u32,
}

#[derive(Clone, Copy)]
pub struct Fin {
    pub owner: u32,
    pub edge: u32,
    pub sense: Sense,
    pub pcurve: bool,
}

#[derive(Clone, Copy)]
pub struct Edge {
    pub start: Option<u32>,
    pub end: Option<u32>,
    pub curve: Option<u32>,
    pub tolerance: Tolerance,
    pub fins: u32,
}

#[derive(Clone, Copy)]
pub struct Vertex {
    pub point: Point3,
    pub tolerance: Tolerance,
}

pub fn kind_of(tag: u32) -> BodyKind
    ensures { result ≡ seen_kind (kind_of tag) }
{
    match tag {
        0 => BodyKind::Acorn,
        1 => BodyKind::Wire,
        2 => BodyKind::Sheet,
        3 => BodyKind::Solid,
        _ => BodyKind::General,
    }
}

pub fn sense_of(tag: u32) -> Sense
    ensures { result ≡ seen_sense (sense_of tag) }
{
    if tag == 0 {
        return Sense::Positive;
    }
    Sense::Negative
}

// The optional id at a place of a record: its tag, then the id.
pub fn ref_at(w: &[u32], at: usize) -> Option<u32>
    requires { at + 1 < length w.now }
    ensures { result ≡ seen_ref (maybe_at w.now at) }
{
    if w[at] == 0 {
        return None;
    }
    Some(w[at + 1])
}

pub fn tolerance_of(tag: u32, own: f64) -> Tolerance
    ensures { result ≡ tolerance_of tag own }
{
    if tag == 0 {
        return Tolerance::Session;
    }
    Tolerance::Own(own)
}

pub fn version_of(n: u32) -> Version
    ensures { result ≡ version_of n }
{
    if n == 2 {
        return Version::Second;
    }
    Version::First
}

// The tolerance in effect, of the model's version and precision.
pub fn in_effect(words: &[u32], reals: &[f64], local: Tolerance) -> f64
    requires { (11 ≤ length words.now) × (1 ≤ length reals.now) }
    ensures { result ≡ effective (version_of (word words.now VERSION)) local (real reals.now PRECISION) }
{
    effective_tolerance(version_of(words[VERSION]), local, reals[PRECISION])
}

// The first three floats of a carrier, its origin, or of a vertex, its point.
pub fn point_of(x: &[f64]) -> Point3
    requires { 3 ≤ length x.now }
    ensures { result ≡ point_at x.now FLOAT_CARRIER_ORIGIN }
{
    Point3 {
        x: x[0],
        y: x[1],
        z: x[2],
    }
}

// The last three of a carrier, its direction or normal.
fn vec_of(x: &[f64]) -> Vec3
    requires { 6 ≤ length x.now }
    ensures { result ≡ vec_at x.now FLOAT_CARRIER_DIRECTION }
{
    Vec3 {
        x: x[3],
        y: x[4],
        z: x[5],
    }
}

pub fn carrier_of(w: &[u32], x: &[f64]) -> Carrier
    requires { (length w.now ≡ 1) × (length x.now ≡ 6) }
    ensures { result ≡ carrier_of w.now x.now }
{
    if w[AT_CARRIER_TAG] == 0 {
        return Carrier::Line(Line {
            origin: point_of(x),
            direction: vec_of(x),
        });
    }
    if w[AT_CARRIER_TAG] == 1 {
        return Carrier::Plane(Plane {
            origin: point_of(x),
            normal: vec_of(x),
        });
    }
    Carrier::Other
}
