// For callers: `precision`, the session's (model.rs), and `version`, the model's (W-211). Each tests 9 first; an id that a call is asked with is a usize, as a place in a list is.
// Inner: `contains`, whether a record is there, whatever the office (callers ask `office_bodies`); `refusal`, which the lookups share.
#![tactic(auto)]

ghost use Rattle.std.specs.Prelude.{◌≡◌, ◌<◌};
ghost use Rattle.memory_contains.specs.Answers.{precision_answer, version_answer, contains_answer};
ghost use Rattle.memory_contains.specs.Inner.{table_of, id_of, refusal_at};

use memory_layout::names::{
    BODIES, EDGES, FACES, FINS, LOOPS, PRECISION, REGIONS, SHELLS, VERSION, VERTICES,
};
use memory_readable::readable;

// The session precision, or the refusal's number.
#[derive(Clone, Copy)]
pub enum PrecisionFound {
    Is(f64),
    Refused(u32),
}

// The version, 1 or 2, or the refusal's number.
#[derive(Clone, Copy)]
pub enum VersionFound {
    Is(u32),
    Refused(u32),
}

// Whether an entity exists, or the refusal's number.
#[derive(Clone, Copy)]
pub enum Contained {
    Is(bool),
    Refused(u32),
}

// An entity of any class.
#[derive(Clone, Copy)]
pub enum EntityRef {
    Body(usize),
    Region(usize),
    Shell(usize),
    Face(usize),
    Loop(usize),
    Fin(usize),
    Edge(usize),
    Vertex(usize),
}

// 9, then 2 where table k has no record of that id.
pub fn refusal(room: &[usize; 10], words: &[u32], reals: &[f64], k: usize, id: usize) -> u32
    requires { k < 10 }
    ensures { result ≡ refusal_at room.now words.now reals.now k id }
{
    if !readable(room, words, reals) {
        return 9;
    }
    if words[k] as usize <= id {
        return 2;
    }
    0
}

pub fn precision(room: &[usize; 10], words: &[u32], reals: &[f64]) -> PrecisionFound
    ensures { result ≡ precision_answer room.now words.now reals.now }
{
    if !readable(room, words, reals) {
        return PrecisionFound::Refused(9);
    }
    PrecisionFound::Is(reals[PRECISION])
}

pub fn version(room: &[usize; 10], words: &[u32], reals: &[f64]) -> VersionFound
    ensures { result ≡ version_answer room.now words.now reals.now }
{
    if !readable(room, words, reals) {
        return VersionFound::Refused(9);
    }
    VersionFound::Is(words[VERSION])
}

fn table_of(entity: EntityRef) -> usize
    ensures { result ≡ table_of entity }
{
    match entity {
        EntityRef::Body(_) => BODIES,
        EntityRef::Region(_) => REGIONS,
        EntityRef::Shell(_) => SHELLS,
        EntityRef::Face(_) => FACES,
        EntityRef::Loop(_) => LOOPS,
        EntityRef::Fin(_) => FINS,
        EntityRef::Edge(_) => EDGES,
        EntityRef::Vertex(_) => VERTICES,
    }
}

fn id_of(entity: EntityRef) -> usize
    ensures { result ≡ id_of entity }
{
    match entity {
        EntityRef::Body(id) => id,
        EntityRef::Region(id) => id,
        EntityRef::Shell(id) => id,
        EntityRef::Face(id) => id,
        EntityRef::Loop(id) => id,
        EntityRef::Fin(id) => id,
        EntityRef::Edge(id) => id,
        EntityRef::Vertex(id) => id,
    }
}

// Whether the entity exists.
pub fn contains(room: &[usize; 10], words: &[u32], reals: &[f64], entity: EntityRef) -> Contained
    ensures { result ≡ contains_answer room.now words.now reals.now entity }
{
    if !readable(room, words, reals) {
        return Contained::Refused(9);
    }
    let used = words[table_of(entity)] as usize;
    Contained::Is(id_of(entity) < used)
}
