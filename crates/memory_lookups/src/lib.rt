// For callers: the lookups of model.rs. Each tests 9, then 2; an id that a call is asked with is a usize, as a place in a list is. Inner: `body`, whatever its office (callers
// ask `office_bodies`), and `carrier_found`.
#![tactic(auto)]

ghost use Rattle.std.specs.Prelude.{◌≡◌, ◌<◌};
ghost use Rattle.memory_lookups.specs.Lookup.{body_answer, region_answer, shell_answer, face_answer, loop_answer, fin_answer, edge_answer, vertex_answer, curve_answer, surface_answer};
ghost use Rattle.memory_lookups.specs.Inner.{carrier_answer};

use geom_carriers::Carrier;
use memory_contains::refusal;
use memory_layout::names::{
    BODIES, CURVES, EDGES, FACES, FINS, LOOPS, REGIONS, SHELLS, SURFACES, VERTICES,
};
use memory_reads::{
    body_at, carrier_at, edge_at, face_at, fin_at, loop_at, region_at, shell_at, vertex_at,
};
use memory_records::records::{Body, Edge, Face, Fin, Loop, Region, Shell, Vertex};

// A record, or the refusal's number.
#[derive(Clone, Copy)]
pub enum BodyFound {
    Is(Body),
    Refused(u32),
}

#[derive(Clone, Copy)]
pub enum RegionFound {
    Is(Region),
    Refused(u32),
}

#[derive(Clone, Copy)]
pub enum ShellFound {
    Is(Shell),
    Refused(u32),
}

#[derive(Clone, Copy)]
pub enum FaceFound {
    Is(Face),
    Refused(u32),
}

#[derive(Clone, Copy)]
pub enum LoopFound {
    Is(Loop),
    Refused(u32),
}

#[derive(Clone, Copy)]
pub enum FinFound {
    Is(Fin),
    Refused(u32),
}

#[derive(Clone, Copy)]
pub enum EdgeFound {
    Is(Edge),
    Refused(u32),
}

#[derive(Clone, Copy)]
pub enum VertexFound {
    Is(Vertex),
    Refused(u32),
}

#[derive(Clone, Copy)]
pub enum CarrierFound {
    Is(Carrier),
    Refused(u32),
}

pub fn body(room: &[usize; 10], words: &[u32], reals: &[f64], id: usize) -> BodyFound
    ensures { result ≡ body_answer room.now words.now reals.now id }
{
    let number = refusal(room, words, reals, BODIES, id);
    if number != 0 {
        return BodyFound::Refused(number);
    }
    BodyFound::Is(body_at(room, words, id))
}

pub fn region(room: &[usize; 10], words: &[u32], reals: &[f64], id: usize) -> RegionFound
    ensures { result ≡ region_answer room.now words.now reals.now id }
{
    let number = refusal(room, words, reals, REGIONS, id);
    if number != 0 {
        return RegionFound::Refused(number);
    }
    RegionFound::Is(region_at(room, words, id))
}

pub fn shell(room: &[usize; 10], words: &[u32], reals: &[f64], id: usize) -> ShellFound
    ensures { result ≡ shell_answer room.now words.now reals.now id }
{
    let number = refusal(room, words, reals, SHELLS, id);
    if number != 0 {
        return ShellFound::Refused(number);
    }
    ShellFound::Is(shell_at(room, words, id))
}

pub fn face(room: &[usize; 10], words: &[u32], reals: &[f64], id: usize) -> FaceFound
    ensures { result ≡ face_answer room.now words.now reals.now id }
{
    let number = refusal(room, words, reals, FACES, id);
    if number != 0 {
        return FaceFound::Refused(number);
    }
    FaceFound::Is(face_at(room, words, id))
}

pub fn loop_(room: &[usize; 10], words: &[u32], reals: &[f64], id: usize) -> LoopFound
    ensures { result ≡ loop_answer room.now words.now reals.now id }
{
    let number = refusal(room, words, reals, LOOPS, id);
    if number != 0 {
        return LoopFound::Refused(number);
    }
    LoopFound::Is(loop_at(room, words, id))
}

pub fn fin(room: &[usize; 10], words: &[u32], reals: &[f64], id: usize) -> FinFound
    ensures { result ≡ fin_answer room.now words.now reals.now id }
{
    let number = refusal(room, words, reals, FINS, id);
    if number != 0 {
        return FinFound::Refused(number);
    }
    FinFound::Is(fin_at(room, words, id))
}

pub fn edge(room: &[usize; 10], words: &[u32], reals: &[f64], id: usize) -> EdgeFound
    ensures { result ≡ edge_answer room.now words.now reals.now id }
{
    let number = refusal(room, words, reals, EDGES, id);
    if number != 0 {
        return EdgeFound::Refused(number);
    }
    EdgeFound::Is(edge_at(room, words, reals, id))
}

pub fn vertex(room: &[usize; 10], words: &[u32], reals: &[f64], id: usize) -> VertexFound
    ensures { result ≡ vertex_answer room.now words.now reals.now id }
{
    let number = refusal(room, words, reals, VERTICES, id);
    if number != 0 {
        return VertexFound::Refused(number);
    }
    VertexFound::Is(vertex_at(room, words, reals, id))
}

// A record of table k, the curves or the surfaces.
fn carrier_found(
    room: &[usize; 10],
    words: &[u32],
    reals: &[f64],
    k: usize,
    id: usize,
) -> CarrierFound
    requires { (7 < k) × (k < 10) }
    ensures { result ≡ carrier_answer room.now words.now reals.now k id }
{
    let number = refusal(room, words, reals, k, id);
    if number != 0 {
        return CarrierFound::Refused(number);
    }
    CarrierFound::Is(carrier_at(room, words, reals, k, id))
}

pub fn curve(room: &[usize; 10], words: &[u32], reals: &[f64], id: usize) -> CarrierFound
    ensures { result ≡ curve_answer room.now words.now reals.now id }
{
    carrier_found(room, words, reals, CURVES, id)
}

pub fn surface(room: &[usize; 10], words: &[u32], reals: &[f64], id: usize) -> CarrierFound
    ensures { result ≡ surface_answer room.now words.now reals.now id }
{
    carrier_found(room, words, reals, SURFACES, id)
}
