// Inner: what a C program asks of the records: the answer's number, and its values in lent slots, which a refusal leaves as they were.
#![tactic(auto)]

ghost use Rattle.std.specs.Prelude.{◌≡◌, [], ◌∷◌, ltb};
ghost use Rattle.geom_lines_planes.specs.Refuse.{◌unless◌};
ghost use Rattle.meaning.specs.Walks.{ends_of};
ghost use Rattle.memory_layout.specs.Layout.{word};
ghost use Rattle.memory_layout.specs.Readable.{readable};
ghost use Rattle.memory_layout.specs.Laid.{version_tag};
ghost use Rattle.memory_layout.specs.Entries.{list_of};
ghost use Rattle.memory_contains.specs.Answers.{contained};
ghost use Rattle.memory_offices.specs.Sight.{by_office};
ghost use Rattle.office_bodies.specs.Answers.{entity_for, record_for, office_entry_number};
ghost use Rattle.split_bounds.specs.Answers.{bounds_number};
ghost use Rattle.walk_fin_ends.specs.Answers.{seen_ends, fin_vertices_number};
ghost use Rattle.memory_writes.specs.Put.{unless_refused};
ghost use Rattle.edit_tags.specs.Tags.{mark};
ghost use Rattle.c_lent.specs.Lent.{was, lent, held};
ghost use Rattle.c_values.specs.Crossing.{tips_value, range_value};
ghost use Rattle.c_values.specs.Given.{entity_of};

use c_values::tags::entity_of;
use c_values::{mark_value, tips_value};
use memory_contains::{Contained, PrecisionFound, VersionFound};
use memory_layout::entries::Entry;
use memory_readable::unknown_tag;
use split_bounds::{Bounds, edge_parameter_bounds};
use walk_fin_ends::FinVertices;

// The session precision.
pub fn precision(room: &[usize; 10], words: &[u32], reals: &[f64], value: &mut [f64; 1]) -> u32
    ensures answer { result ≡ 9 unless lent readable room words reals }
    ensures slots { value.new ≡ unless_refused result ((held room words reals).precision ∷ []) value.old }
{
    match memory_contains::precision(room, words, reals) {
        PrecisionFound::Is(p) => {
            *value = [p];
            0
        }
        PrecisionFound::Refused(n) => n,
    }
}

// The version.
pub fn version(room: &[usize; 10], words: &[u32], reals: &[f64], value: &mut [u32; 1]) -> u32
    ensures answer { result ≡ 9 unless lent readable room words reals }
    ensures slots { value.new ≡ unless_refused result (version_tag (held room words reals).version ∷ []) value.old }
{
    match memory_contains::version(room, words, reals) {
        VersionFound::Is(v) => {
            *value = [v];
            0
        }
        VersionFound::Refused(n) => n,
    }
}

// The entry at a place of list j of record i.
pub fn list_entry(
    room: &[usize; 10],
    words: &[u32],
    reals: &[f64],
    office: u32,
    j: usize,
    i: usize,
    place: usize,
    value: &mut [u32; 1],
) -> u32
    ensures answer { result ≡ lent office_entry_number room words reals office j i place }
    ensures slots { value.new ≡ unless_refused result (word (list_of (was room) (was words) j (record_for (held room words reals) office j i)) place ∷ []) value.old }
{
    match office_bodies::list_entry(room, words, reals, office, j, i, place) {
        Entry::Is(id) => {
            *value = [id];
            0
        }
        Entry::Refused(n) => n,
    }
}

// Whether an entity exists, by its class, which is the number of its table; a class that is none gives 1, as an office above 1 does, right after 9.
pub fn contains(
    room: &[usize; 10],
    words: &[u32],
    reals: &[f64],
    office: u32,
    class: u32,
    id: usize,
    value: &mut [u32; 1],
) -> u32
    ensures answer { result ≡ lent by_office room words reals office (1 unless ltb class 8) }
    ensures slots { value.new ≡ unless_refused result (mark (contained (held room words reals) (entity_for (held room words reals) office (entity_of class id))) ∷ []) value.old }
{
    if 8 <= class {
        return unknown_tag(room, words, reals);
    }
    let entity = entity_of(class, id);
    match office_bodies::contains(room, words, reals, office, entity) {
        Contained::Is(yes) => {
            *value = mark_value(yes);
            0
        }
        Contained::Refused(n) => n,
    }
}

// The start and end vertices of a fin, each as a tag and an id.
pub fn fin_vertices(
    room: &[usize; 10],
    words: &[u32],
    reals: &[f64],
    fin: usize,
    value: &mut [u32; 4],
) -> u32
    ensures answer { result ≡ lent fin_vertices_number room words reals fin }
    ensures slots { value.new ≡ unless_refused result (tips_value (seen_ends (ends_of (held room words reals) fin))) value.old }
{
    match walk_fin_ends::fin_vertices(room, words, reals, fin) {
        FinVertices::Is(t) => {
            *value = tips_value(t);
            0
        }
        FinVertices::Refused(n) => n,
    }
}

// The parameter bounds of a straight edge on its line.
pub fn bounds_of(
    room: &[usize; 10],
    words: &[u32],
    reals: &[f64],
    edge: usize,
    value: &mut [f64; 2],
) -> u32
    ensures answer { result ≡ lent bounds_number room words reals edge }
    ensures slots { value.new ≡ unless_refused result (range_value (held room words reals) edge) value.old }
{
    match edge_parameter_bounds(room, words, reals, edge) {
        Bounds::Is(r) => {
            *value = [r.lo, r.hi];
            0
        }
        Bounds::Refused(n) => n,
    }
}
