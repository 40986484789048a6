// A record as numbers: its fields as `edit_fields` lays them out, then the lengths of its lists.
ghost use Rattle.std.specs.Prelude.{◌≡◌};
ghost use Rattle.c_values.specs.Crossing.{body_value, region_value, shell_value, face_value, loop_value, fin_value, edge_value, vertex_value, edge_reals, vertex_reals};

use edit_fields::{
    edge_fields, edge_floats, face_fields, fin_fields, kind_fields, region_fields, vertex_fields,
    vertex_floats,
};
use memory_records::records::{Body, Edge, Face, Fin, Loop, Region, Shell, Vertex};

pub fn body_value(b: Body) -> [u32; 2]
    ensures { result ≡ body_value b }
{
    let kind = b.kind;
    let f = kind_fields(kind);
    [f[0], b.regions]
}

pub fn region_value(r: Region) -> [u32; 3]
    ensures { result ≡ region_value r }
{
    let f = region_fields(r.body, r.solid);
    [f[0], f[1], r.shells]
}

pub fn shell_value(s: Shell) -> [u32; 4]
    ensures { result ≡ shell_value s }
{
    [s.region, s.faces, s.wire_edges, s.acorn_vertices]
}

pub fn face_value(f: Face) -> [u32; 8]
    ensures { result ≡ face_value f }
{
    let front = f.front;
    let back = f.back;
    let surface = f.surface;
    let sense = f.sense;
    let v = face_fields(front, back, surface, sense);
    [v[0], v[1], v[2], v[3], v[4], v[5], v[6], f.loops]
}

pub fn loop_value(l: Loop) -> [u32; 2]
    ensures { result ≡ loop_value l }
{
    [l.face, l.fins]
}

pub fn fin_value(f: Fin) -> [u32; 4]
    ensures { result ≡ fin_value f }
{
    let sense = f.sense;
    fin_fields(f.owner, f.edge, sense, f.pcurve)
}

pub fn edge_value(e: Edge) -> [u32; 8]
    ensures { result ≡ edge_value e }
{
    let start = e.start;
    let end = e.end;
    let curve = e.curve;
    let tolerance = e.tolerance;
    let v = edge_fields(start, end, curve, tolerance);
    [v[0], v[1], v[2], v[3], v[4], v[5], v[6], e.fins]
}

pub fn edge_own(e: Edge) -> [f64; 1]
    ensures { result ≡ edge_reals e }
{
    let tolerance = e.tolerance;
    edge_floats(tolerance)
}

pub fn vertex_value(v: Vertex) -> [u32; 1]
    ensures { result ≡ vertex_value v }
{
    let tolerance = v.tolerance;
    vertex_fields(tolerance)
}

pub fn vertex_own(v: Vertex) -> [f64; 4]
    ensures { result ≡ vertex_reals v }
{
    let tolerance = v.tolerance;
    vertex_floats(v.point, tolerance)
}
