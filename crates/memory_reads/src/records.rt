// The records, each made of its own words and floats (entity.rs).
ghost use Rattle.std.specs.Prelude.{◌≡◌, length};
ghost use Rattle.memory_layout.specs.Names.{AT_BODY_REGIONS, AT_REGION_SHELLS, AT_SHELL_FACES, AT_SHELL_WIRES, AT_SHELL_ACORNS, AT_FACE_LOOPS, AT_LOOP_FINS, AT_EDGE_FINS};
ghost use Rattle.memory_layout.specs.Decode.{body_of, region_of, shell_of, face_of, loop_of, fin_of, edge_of, vertex_of};
ghost use Rattle.memory_layout.specs.Fit.{Held};
ghost use Rattle.memory_records.specs.Seen.{seen_body, seen_region, seen_shell, seen_face, seen_loop, seen_fin, seen_edge, seen_vertex};

use memory_layout::names::{
    AT_BODY_KIND, AT_BODY_REGIONS, AT_EDGE_CURVE, AT_EDGE_END, AT_EDGE_FINS, AT_EDGE_START,
    AT_EDGE_TOLERANCE, AT_FACE_BACK, AT_FACE_FRONT, AT_FACE_LOOPS, AT_FACE_SENSE, AT_FACE_SURFACE,
    AT_FIN_EDGE, AT_FIN_LOOP, AT_FIN_PCURVE, AT_FIN_SENSE, AT_LOOP_FACE, AT_LOOP_FINS,
    AT_REGION_BODY, AT_REGION_SHELLS, AT_REGION_SOLID, AT_SHELL_ACORNS, AT_SHELL_FACES,
    AT_SHELL_REGION, AT_SHELL_WIRES, AT_VERTEX_TOLERANCE, FLOAT_EDGE_TOLERANCE,
    FLOAT_VERTEX_TOLERANCE,
};
use memory_records::records::{
    Body, Edge, Face, Fin, Loop, Region, Shell, Vertex, kind_of, point_of, ref_at, sense_of,
    tolerance_of,
};

pub fn body_of(w: &[u32]) -> Body
    requires { Held w.now AT_BODY_REGIONS }
    ensures { result ≡ seen_body (body_of w.now) }
{
    Body {
        kind: kind_of(w[AT_BODY_KIND]),
        regions: w[AT_BODY_REGIONS],
    }
}

pub fn region_of(w: &[u32]) -> Region
    requires { Held w.now AT_REGION_SHELLS }
    ensures { result ≡ seen_region (region_of w.now) }
{
    Region {
        body: w[AT_REGION_BODY],
        solid: w[AT_REGION_SOLID] != 0,
        shells: w[AT_REGION_SHELLS],
    }
}

pub fn shell_of(w: &[u32]) -> Shell
    requires held { Held w.now AT_SHELL_FACES }
    requires held_2 { Held w.now AT_SHELL_WIRES }
    requires held_3 { Held w.now AT_SHELL_ACORNS }
    ensures { result ≡ seen_shell (shell_of w.now) }
{
    Shell {
        region: w[AT_SHELL_REGION],
        faces: w[AT_SHELL_FACES],
        wire_edges: w[AT_SHELL_WIRES],
        acorn_vertices: w[AT_SHELL_ACORNS],
    }
}

pub fn face_of(w: &[u32]) -> Face
    requires { Held w.now AT_FACE_LOOPS }
    ensures { result ≡ seen_face (face_of w.now) }
{
    Face {
        front: ref_at(w, AT_FACE_FRONT),
        back: ref_at(w, AT_FACE_BACK),
        surface: ref_at(w, AT_FACE_SURFACE),
        sense: sense_of(w[AT_FACE_SENSE]),
        loops: w[AT_FACE_LOOPS],
    }
}

pub fn loop_of(w: &[u32]) -> Loop
    requires { Held w.now AT_LOOP_FINS }
    ensures { result ≡ seen_loop (loop_of w.now) }
{
    Loop {
        face: w[AT_LOOP_FACE],
        fins: w[AT_LOOP_FINS],
    }
}

pub fn fin_of(w: &[u32]) -> Fin
    requires { length w.now ≡ 4 }
    ensures { result ≡ seen_fin (fin_of w.now) }
{
    Fin {
        owner: w[AT_FIN_LOOP],
        edge: w[AT_FIN_EDGE],
        sense: sense_of(w[AT_FIN_SENSE]),
        pcurve: w[AT_FIN_PCURVE] != 0,
    }
}

pub fn edge_of(w: &[u32], x: &[f64]) -> Edge
    requires held { Held w.now AT_EDGE_FINS }
    requires x_len { length x.now ≡ 1 }
    ensures { result ≡ seen_edge (edge_of w.now x.now) }
{
    Edge {
        start: ref_at(w, AT_EDGE_START),
        end: ref_at(w, AT_EDGE_END),
        curve: ref_at(w, AT_EDGE_CURVE),
        tolerance: tolerance_of(w[AT_EDGE_TOLERANCE], x[FLOAT_EDGE_TOLERANCE]),
        fins: w[AT_EDGE_FINS],
    }
}

pub fn vertex_of(w: &[u32], x: &[f64]) -> Vertex
    requires { (length w.now ≡ 1) × (length x.now ≡ 4) }
    ensures { result ≡ seen_vertex (vertex_of w.now x.now) }
{
    Vertex {
        point: point_of(x),
        tolerance: tolerance_of(w[AT_VERTEX_TOLERANCE], x[FLOAT_VERTEX_TOLERANCE]),
    }
}
