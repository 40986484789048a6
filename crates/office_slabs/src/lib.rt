// For callers: the slab profile of a body (W-212), by the office that asks (W-206): 9, 1 for an office above 1, then as `slab_profile` answers of the body that the id is for that office.
// specs/Answers.antt says what it answers and leaves.
#![tactic(auto)]

ghost use Rattle.std.specs.Prelude.{◌≡◌, length, replicate};
ghost use Rattle.office_slabs.specs.Answers.{office_profile, office_areas};

use memory_offices::body_for;
use memory_readable::unknown_tag;
use slab_profile::Profile;
use walk_marks::clear;

// Accepted, with the area in all and that of each face in the front of the list; or the first broken rule and the entity that breaks it. `faces` and `edges` are seen marks.
pub fn body_profile(
    room: &[usize; 10],
    words: &[u32],
    reals: &[f64],
    office: u32,
    body: usize,
    faces: &mut [u8],
    edges: &mut [u8],
    areas: &mut [u64],
) -> Profile
    ensures answer { result ≡ office_profile room.now words.now reals.now office body faces.old edges.old areas.old }
    ensures areas { areas.new ≡ office_areas room.now words.now reals.now office body faces.old edges.old areas.old }
    ensures faces { faces.new ≡ replicate (length faces.old) 0 }
    ensures edges { edges.new ≡ replicate (length edges.old) 0 }
{
    if 1 < office {
        clear(faces);
        clear(edges);
        return Profile::Refused(unknown_tag(room, words, reals));
    }
    let seen = body_for(words, office, body);
    slab_profile::body_profile(room, words, reals, seen, faces, edges, areas)
}
