// Inner: the lookups of model.rs for a C program, a record's value in lent slots.
#![tactic(auto)]

ghost use Rattle.std.specs.Prelude.{◌≡◌};
ghost use Rattle.geom_lines_planes.specs.Refuse.{◌unless◌, ◌then◌};
ghost use Rattle.meaning.specs.Model.{has};
ghost use Rattle.memory_layout.specs.Readable.{readable};
ghost use Rattle.memory_writes.specs.Put.{unless_refused};
ghost use Rattle.memory_records.specs.Seen.{seen_body, seen_region, seen_shell, seen_face, seen_loop, seen_fin, seen_edge, seen_vertex};
ghost use Rattle.edit_fields.specs.Fields.{carrier_fields, carrier_floats};
ghost use Rattle.meaning.specs.Offices.{body_for};
ghost use Rattle.office_bodies.specs.Answers.{office_body_number};
ghost use Rattle.c_lent.specs.Lent.{lent, held};
ghost use Rattle.c_values.specs.Crossing.{body_value, region_value, shell_value, face_value, loop_value, fin_value, edge_value, vertex_value, edge_reals, vertex_reals};

use c_values::values::{
    body_value, edge_own, edge_value, face_value, fin_value, loop_value, region_value, shell_value,
    vertex_own, vertex_value,
};
use edit_fields::{carrier_fields, carrier_floats};
use memory_lookups::{
    BodyFound, CarrierFound, EdgeFound, FaceFound, FinFound, LoopFound, RegionFound, ShellFound,
    VertexFound,
};

pub fn body(
    room: &[usize; 10],
    words: &[u32],
    reals: &[f64],
    office: u32,
    id: usize,
    value: &mut [u32; 2],
) -> u32
    ensures answer { result ≡ lent office_body_number room words reals office id }
    ensures slots { value.new ≡ unless_refused result (body_value (seen_body ((held room words reals).bodies.slot (body_for (held room words reals) office id)))) value.old }
{
    match office_bodies::body(room, words, reals, office, id) {
        BodyFound::Is(r) => {
            *value = body_value(r);
            0
        }
        BodyFound::Refused(n) => n,
    }
}

pub fn region(
    room: &[usize; 10],
    words: &[u32],
    reals: &[f64],
    id: usize,
    value: &mut [u32; 3],
) -> u32
    ensures answer { result ≡ 9 unless lent readable room words reals then 2 unless has (held room words reals).regions id }
    ensures slots { value.new ≡ unless_refused result (region_value (seen_region ((held room words reals).regions.slot id))) value.old }
{
    match memory_lookups::region(room, words, reals, id) {
        RegionFound::Is(r) => {
            *value = region_value(r);
            0
        }
        RegionFound::Refused(n) => n,
    }
}

pub fn shell(
    room: &[usize; 10],
    words: &[u32],
    reals: &[f64],
    id: usize,
    value: &mut [u32; 4],
) -> u32
    ensures answer { result ≡ 9 unless lent readable room words reals then 2 unless has (held room words reals).shells id }
    ensures slots { value.new ≡ unless_refused result (shell_value (seen_shell ((held room words reals).shells.slot id))) value.old }
{
    match memory_lookups::shell(room, words, reals, id) {
        ShellFound::Is(r) => {
            *value = shell_value(r);
            0
        }
        ShellFound::Refused(n) => n,
    }
}

pub fn face(
    room: &[usize; 10],
    words: &[u32],
    reals: &[f64],
    id: usize,
    value: &mut [u32; 8],
) -> u32
    ensures answer { result ≡ 9 unless lent readable room words reals then 2 unless has (held room words reals).faces id }
    ensures slots { value.new ≡ unless_refused result (face_value (seen_face ((held room words reals).faces.slot id))) value.old }
{
    match memory_lookups::face(room, words, reals, id) {
        FaceFound::Is(r) => {
            *value = face_value(r);
            0
        }
        FaceFound::Refused(n) => n,
    }
}

pub fn loop_(
    room: &[usize; 10],
    words: &[u32],
    reals: &[f64],
    id: usize,
    value: &mut [u32; 2],
) -> u32
    ensures answer { result ≡ 9 unless lent readable room words reals then 2 unless has (held room words reals).loops id }
    ensures slots { value.new ≡ unless_refused result (loop_value (seen_loop ((held room words reals).loops.slot id))) value.old }
{
    match memory_lookups::loop_(room, words, reals, id) {
        LoopFound::Is(r) => {
            *value = loop_value(r);
            0
        }
        LoopFound::Refused(n) => n,
    }
}

pub fn fin(room: &[usize; 10], words: &[u32], reals: &[f64], id: usize, value: &mut [u32; 4]) -> u32
    ensures answer { result ≡ 9 unless lent readable room words reals then 2 unless has (held room words reals).fins id }
    ensures slots { value.new ≡ unless_refused result (fin_value (seen_fin ((held room words reals).fins.slot id))) value.old }
{
    match memory_lookups::fin(room, words, reals, id) {
        FinFound::Is(r) => {
            *value = fin_value(r);
            0
        }
        FinFound::Refused(n) => n,
    }
}

pub fn edge(
    room: &[usize; 10],
    words: &[u32],
    reals: &[f64],
    id: usize,
    value: &mut [u32; 8],
    floats: &mut [f64; 1],
) -> u32
    ensures answer { result ≡ 9 unless lent readable room words reals then 2 unless has (held room words reals).edges id }
    ensures slots { value.new ≡ unless_refused result (edge_value (seen_edge ((held room words reals).edges.slot id))) value.old }
    ensures floats { floats.new ≡ unless_refused result (edge_reals (seen_edge ((held room words reals).edges.slot id))) floats.old }
{
    match memory_lookups::edge(room, words, reals, id) {
        EdgeFound::Is(r) => {
            *value = edge_value(r);
            *floats = edge_own(r);
            0
        }
        EdgeFound::Refused(n) => n,
    }
}

pub fn vertex(
    room: &[usize; 10],
    words: &[u32],
    reals: &[f64],
    id: usize,
    value: &mut [u32; 1],
    floats: &mut [f64; 4],
) -> u32
    ensures answer { result ≡ 9 unless lent readable room words reals then 2 unless has (held room words reals).vertices id }
    ensures slots { value.new ≡ unless_refused result (vertex_value (seen_vertex ((held room words reals).vertices.slot id))) value.old }
    ensures floats { floats.new ≡ unless_refused result (vertex_reals (seen_vertex ((held room words reals).vertices.slot id))) floats.old }
{
    match memory_lookups::vertex(room, words, reals, id) {
        VertexFound::Is(r) => {
            *value = vertex_value(r);
            *floats = vertex_own(r);
            0
        }
        VertexFound::Refused(n) => n,
    }
}

pub fn curve(
    room: &[usize; 10],
    words: &[u32],
    reals: &[f64],
    id: usize,
    value: &mut [u32; 1],
    floats: &mut [f64; 6],
) -> u32
    ensures answer { result ≡ 9 unless lent readable room words reals then 2 unless has (held room words reals).curves id }
    ensures slots { value.new ≡ unless_refused result (carrier_fields ((held room words reals).curves.slot id)) value.old }
    ensures floats { floats.new ≡ unless_refused result (carrier_floats ((held room words reals).curves.slot id)) floats.old }
{
    match memory_lookups::curve(room, words, reals, id) {
        CarrierFound::Is(r) => {
            *value = carrier_fields(r);
            *floats = carrier_floats(r);
            0
        }
        CarrierFound::Refused(n) => n,
    }
}

pub fn surface(
    room: &[usize; 10],
    words: &[u32],
    reals: &[f64],
    id: usize,
    value: &mut [u32; 1],
    floats: &mut [f64; 6],
) -> u32
    ensures answer { result ≡ 9 unless lent readable room words reals then 2 unless has (held room words reals).surfaces id }
    ensures slots { value.new ≡ unless_refused result (carrier_fields ((held room words reals).surfaces.slot id)) value.old }
    ensures floats { floats.new ≡ unless_refused result (carrier_floats ((held room words reals).surfaces.slot id)) floats.old }
{
    match memory_lookups::surface(room, words, reals, id) {
        CarrierFound::Is(r) => {
            *value = carrier_fields(r);
            *floats = carrier_floats(r);
            0
        }
        CarrierFound::Refused(n) => n,
    }
}
