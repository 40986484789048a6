// Inner: the slab profile of a body (W-212), whatever its office; callers ask `office_slabs`. specs/Answers.antt says what it answers and leaves.
#![tactic(auto)]

ghost use Rattle.std.specs.Prelude.{◌≡◌, true, ◌≤◌, length, replicate};
ghost use Rattle.meaning.specs.Lists.{all};
ghost use Rattle.meaning.specs.Walks.{face_walk};
ghost use Rattle.meaning_slabs.specs.Slabs.{accepted, verdict, short_list};
ghost use Rattle.memory_layout.specs.Decode.{decode};
ghost use Rattle.memory_layout.specs.Fit.{Fit};
ghost use Rattle.walk_paths.specs.Paths.{Edged};
ghost use Rattle.slab_areas.specs.Measured.{measurable};
ghost use Rattle.slab_rules.specs.Judged.{verdict_of};
ghost use Rattle.slab_profile.specs.Answers.{profile_number, profile_answer, profile_list};
ghost use Rattle.slab_profile.specs.Told.{Told, solid_number};

use inquire_polyhedral::polyhedral_refusal;
use inquire_tally::is_solid;
use memory_layout::layout::words_of;
use memory_layout::names::{AT_BODY_KIND, BODIES, EDGES, FACES};
use slab_areas::write_areas;
use slab_rules::{Verdict, body_verdict};
use walk_marks::clear;

// The area in all of an accepted body, the first broken rule and where, or the refusal's number.
#[derive(Clone, Copy)]
pub enum Profile {
    Accepted(u64),
    Broken(Verdict),
    Refused(u32),
}

// Behind the verdict: the areas of an accepted body, whose walk of faces is `list`.
fn measured(
    room: &[usize; 10],
    words: &[u32],
    reals: &[f64],
    body: usize,
    list: &[u32],
    v: Verdict,
    areas: &mut [u64],
) -> Profile
    requires fit { Fit room.now words.now reals.now }
    requires list_value { list.now ≡ face_walk (decode room.now words.now reals.now) body }
    requires list_len_bound { length list.now ≤ 512 }
    requires v_value { verdict_of v ≡ verdict (decode room.now words.now reals.now) body }
    requires list_value_2 { (verdict (decode room.now words.now reals.now) body ≡ accepted) → all (measurable room.now words.now) list.now ≡ true }
    ensures { Told (decode room.now words.now reals.now) body (short_list (decode room.now words.now reals.now) body (length areas.old)) areas.old areas.new result }
{
    let rule = v.rule;
    if rule != 0 {
        return Profile::Broken(Verdict {
            rule,
            entity: v.entity,
        });
    }
    if areas.len() < list.len() {
        return Profile::Refused(8);
    }
    Profile::Accepted(write_areas(room, words, reals, list, areas))
}

// Of a body whose walks are not refused. The marks come all zero and are left so.
fn walked(
    room: &[usize; 10],
    words: &[u32],
    reals: &[f64],
    body: usize,
    faces: &mut [u8],
    edges: &mut [u8],
    areas: &mut [u64],
) -> Profile
    requires fit { Fit room.now words.now reals.now }
    requires edged { Edged room.now words.now body }
    requires faces_value { faces.old ≡ replicate (length faces.old) 0 }
    requires edges_value { edges.old ≡ replicate (length edges.old) 0 }
    ensures told { Told (decode room.now words.now reals.now) body (short_list (decode room.now words.now reals.now) body (length areas.old)) areas.old areas.new result }
    ensures faces_after { faces.new ≡ replicate (length faces.old) 0 }
    ensures edges_after { edges.new ≡ replicate (length edges.old) 0 }
{
    let mut list = [0u32; 512];
    let n = walk_paths::faces(room, words, body, faces, &mut list);
    let v = body_verdict(room, words, reals, body, &list[..n], faces, edges);
    measured(room, words, reals, body, &list[..n], v, areas)
}

// By its kind: not solid 6.
fn solid_profile(
    room: &[usize; 10],
    words: &[u32],
    reals: &[f64],
    body: usize,
    faces: &mut [u8],
    edges: &mut [u8],
    areas: &mut [u64],
) -> Profile
    requires fit { Fit room.now words.now reals.now }
    requires edged { Edged room.now words.now body }
    requires faces_value { faces.old ≡ replicate (length faces.old) 0 }
    requires edges_value { edges.old ≡ replicate (length edges.old) 0 }
    ensures told { Told (decode room.now words.now reals.now) body (solid_number (decode room.now words.now reals.now) body (length areas.old)) areas.old areas.new result }
    ensures faces_after { faces.new ≡ replicate (length faces.old) 0 }
    ensures edges_after { edges.new ≡ replicate (length edges.old) 0 }
{
    let w = words_of(room, words, BODIES, body);
    if !is_solid(w[AT_BODY_KIND]) {
        return Profile::Refused(6);
    }
    walked(room, words, reals, body, faces, edges, areas)
}

// The slab profile of a body; of an accepted one the area of each face into the front of the list. `faces` and `edges` are seen marks.
pub fn body_profile(
    room: &[usize; 10],
    words: &[u32],
    reals: &[f64],
    body: usize,
    faces: &mut [u8],
    edges: &mut [u8],
    areas: &mut [u64],
) -> Profile
    ensures answer { result ≡ profile_answer room.now words.now reals.now body faces.old edges.old areas.old }
    ensures areas { areas.new ≡ profile_list room.now words.now reals.now body faces.old edges.old areas.old }
    ensures faces { faces.new ≡ replicate (length faces.old) 0 }
    ensures edges { edges.new ≡ replicate (length edges.old) 0 }
{
    let enough = (room[FACES] <= faces.len()) & (room[EDGES] <= edges.len());
    clear(faces);
    clear(edges);
    let n = polyhedral_refusal(room, words, reals, enough, body);
    if n != 0 {
        return Profile::Refused(n);
    }
    solid_profile(room, words, reals, body, faces, edges, areas)
}
