// Inner: the slab profile of a body as a C program asks for it (W-212): the answer's number, and the profile in three lent slots, which a refusal leaves as they were.
#![tactic(auto)]

ghost use Rattle.std.specs.Prelude.{◌≡◌, length, replicate};
ghost use Rattle.memory_writes.specs.Put.{unless_refused};
ghost use Rattle.slab_profile.specs.declared.Profile.TheVariants.{Refused};
ghost use Rattle.slab_profile.specs.Answers.{told};
ghost use Rattle.office_slabs.specs.Answers.{profile_asked, office_profile_number, office_areas};
ghost use Rattle.c_lent.specs.Lent.{lent, Crosses};
ghost use Rattle.c_slabs.specs.Slots.{profile_value};

use slab_profile::Profile;

fn put_profile(answer: Profile, value: &mut [u64; 3]) -> u32
    ensures { Crosses told Refused profile_value answer result value.old value.new }
{
    match answer {
        Profile::Accepted(n) => {
            *value = [0, 0, n];
            0
        }
        Profile::Broken(v) => {
            *value = [v.rule as u64, v.entity, 0];
            0
        }
        Profile::Refused(n) => n,
    }
}

// The slab profile of a body; `faces` and `edges` are seen marks.
pub fn profile_of(
    room: &[usize; 10],
    words: &[u32],
    reals: &[f64],
    office: u32,
    body: usize,
    faces: &mut [u8],
    edges: &mut [u8],
    areas: &mut [u64],
    value: &mut [u64; 3],
) -> u32
    ensures answer { result ≡ lent office_profile_number room words reals office body faces.old edges.old areas.old }
    ensures slots { value.new ≡ unless_refused result (profile_value (lent profile_asked room words reals office body)) value.old }
    ensures areas { areas.new ≡ lent office_areas room words reals office body faces.old edges.old areas.old }
    ensures faces { faces.new ≡ replicate (length faces.old) 0 }
    ensures edges { edges.new ≡ replicate (length edges.old) 0 }
{
    let answer = office_slabs::body_profile(room, words, reals, office, body, faces, edges, areas);
    put_profile(answer, value)
}
