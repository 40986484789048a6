// For callers: a body looked up, whether a record is there, and the entries of lists, by the office that asks (W-206): 9, 1 for an office above 1, then as `memory_lookups`,
// `memory_contains`, `memory_lists` and `edit_lists` answer, of a body as it is for that office. specs/Answers.antt says what each answers and leaves.
// (`insert_body` is in `edit_inserts`, `set_body` in `edit_sets`.) Inner: `entity_for` and `record_for`.
//
// The family office_: the calls about a body, by the drawing office that asks (W-206). Call office_bodies, office_walks or office_views, office_measures, office_sheets or office_sheet_lent; each is a test of the office
// in front of a call by id. Read crates/meaning/specs/Offices.antt and memory_offices first. The split, which names its office too, is in split_.
#![tactic(auto)]

ghost use Rattle.std.specs.Prelude.{◌≡◌, ℕ, List, Float};
ghost use Rattle.memory_layout.specs.Decode.{decode};
ghost use Rattle.office_bodies.specs.Answers.{entity_for, record_for, office_body, office_contains, office_entry_number, office_entry, office_put_words, office_append_number, office_append_words, office_strike_words};

use memory_contains::{Contained, EntityRef};
use memory_layout::entries::Entry;
use memory_layout::names::BODY_REGIONS;
use memory_lookups::BodyFound;
use memory_offices::body_for;
use memory_readable::unknown_tag;

// A body as it is for the office; what is no body is the same to both.
fn entity_for(words: &[u32], office: u32, entity: EntityRef) -> EntityRef
    ensures { (room : List ℕ) (x : List Float) → result ≡ entity_for (decode room words.now x) office entity }
{
    match entity {
        EntityRef::Body(id) => EntityRef::Body(body_for(words, office, id)),
        EntityRef::Region(id) => EntityRef::Region(id),
        EntityRef::Shell(id) => EntityRef::Shell(id),
        EntityRef::Face(id) => EntityRef::Face(id),
        EntityRef::Loop(id) => EntityRef::Loop(id),
        EntityRef::Fin(id) => EntityRef::Fin(id),
        EntityRef::Edge(id) => EntityRef::Edge(id),
        EntityRef::Vertex(id) => EntityRef::Vertex(id),
    }
}

// The record of list j: a body as it is for the office.
fn record_for(words: &[u32], office: u32, j: usize, i: usize) -> usize
    ensures { (room : List ℕ) (x : List Float) → result ≡ record_for (decode room words.now x) office j i }
{
    if j == BODY_REGIONS {
        return body_for(words, office, i);
    }
    i
}

pub fn body(room: &[usize; 10], words: &[u32], reals: &[f64], office: u32, id: usize) -> BodyFound
    ensures { result ≡ office_body room.now words.now reals.now office id }
{
    if 1 < office {
        return BodyFound::Refused(unknown_tag(room, words, reals));
    }
    memory_lookups::body(room, words, reals, body_for(words, office, id))
}

// Whether the entity exists for the office.
pub fn contains(
    room: &[usize; 10],
    words: &[u32],
    reals: &[f64],
    office: u32,
    entity: EntityRef,
) -> Contained
    ensures { result ≡ office_contains room.now words.now reals.now office entity }
{
    if 1 < office {
        return Contained::Refused(unknown_tag(room, words, reals));
    }
    memory_contains::contains(room, words, reals, entity_for(words, office, entity))
}

// The entry at a place of list j of record i.
pub fn list_entry(
    room: &[usize; 10],
    words: &[u32],
    reals: &[f64],
    office: u32,
    j: usize,
    i: usize,
    place: usize,
) -> Entry
    ensures { result ≡ office_entry room.now words.now reals.now office j i place }
{
    if 1 < office {
        return Entry::Refused(unknown_tag(room, words, reals));
    }
    memory_lists::list_entry(
        room,
        words,
        reals,
        j,
        record_for(words, office, j, i),
        place,
    )
}

// Another id at a place of list j of record i: 0, or the refusal's number.
pub fn put_entry(
    room: &[usize; 10],
    words: &mut [u32],
    reals: &[f64],
    office: u32,
    j: usize,
    i: usize,
    place: usize,
    id: u32,
) -> u32
    ensures answer { result ≡ office_entry_number room.now words.old reals.now office j i place }
    ensures tables { words.new ≡ office_put_words room.now words.old reals.now office j i place id }
{
    if 1 < office {
        return unknown_tag(room, &words[..], reals);
    }
    let seen = record_for(&words[..], office, j, i);
    edit_lists::put_entry(room, words, reals, j, seen, place, id)
}

// An entry more at the end of list j of record i: 0, or the refusal's number.
pub fn append_entry(
    room: &[usize; 10],
    words: &mut [u32],
    reals: &[f64],
    office: u32,
    j: usize,
    i: usize,
    id: u32,
) -> u32
    ensures answer { result ≡ office_append_number room.now words.old reals.now office j i }
    ensures tables { words.new ≡ office_append_words room.now words.old reals.now office j i id }
{
    if 1 < office {
        return unknown_tag(room, &words[..], reals);
    }
    let seen = record_for(&words[..], office, j, i);
    edit_lists::append_entry(room, words, reals, j, seen, id)
}

// Without the entry at a place of list j of record i: 0, or the refusal's number.
pub fn strike_entry(
    room: &[usize; 10],
    words: &mut [u32],
    reals: &[f64],
    office: u32,
    j: usize,
    i: usize,
    place: usize,
) -> u32
    ensures answer { result ≡ office_entry_number room.now words.old reals.now office j i place }
    ensures tables { words.new ≡ office_strike_words room.now words.old reals.now office j i place }
{
    if 1 < office {
        return unknown_tag(room, &words[..], reals);
    }
    let seen = record_for(&words[..], office, j, i);
    edit_lists::strike_entry(room, words, reals, j, seen, place)
}
