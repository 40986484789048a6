// Inner: `body_volume` of inquire.rs, whatever the body's office; callers ask `office_measures`. specs/Answers.antt says what it answers.
#![tactic(auto)]

ghost use Rattle.std.specs.Prelude.{◌≡◌, length, replicate};
ghost use Rattle.inquire_volume.specs.Answers.{volume_answer};
ghost use Rattle.inquire_volume.specs.Told.{told_volume};

use inquire_regions::Tally;
use inquire_tally::body_tally;
use split_segment::refusals::{then, unless};
use station_answers::Volume;

// The sum, unless a side is refused or there is none: 4.
fn told(t: Tally) -> Volume
    ensures { result ≡ told_volume t }
{
    let n = then(t.refused, unless(4, !t.empty));
    if n != 0 {
        return Volume::Refused(n);
    }
    Volume::Is(t.volume)
}

// The volume of a body's solid regions. `faces` are seen marks.
pub fn body_volume(
    room: &[usize; 10],
    words: &[u32],
    reals: &[f64],
    body: usize,
    faces: &mut [u8],
) -> Volume
    ensures answer { result ≡ volume_answer room.now words.now reals.now body faces.old }
    ensures faces { faces.new ≡ replicate (length faces.old) 0 }
{
    told(body_tally(room, words, reals, false, body, faces))
}
