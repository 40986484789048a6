// Inner: the stones of a course as a C program asks for them (W-213): the answer's number, and in lent slots how many stones there are and their total in two words, which a refusal leaves as they were.
#![tactic(auto)]

ghost use Rattle.std.specs.Prelude.{◌≡◌, length, replicate};
ghost use Rattle.memory_writes.specs.Put.{unless_refused};
ghost use Rattle.office_courses.specs.Answers.{course_number};
ghost use Rattle.c_lent.specs.Lent.{was, lent};
ghost use Rattle.c_courses.specs.Slots.{sum_slots, course_slots};

use course_stones::CourseSum;

fn put_sum(s: CourseSum, value: &mut [u64; 3]) -> u32
    ensures answer { result ≡ s.refused }
    ensures slots { value.new ≡ unless_refused s.refused (sum_slots s) value.old }
{
    if s.refused != 0 {
        return s.refused;
    }
    *value = [s.stones, s.low, s.high];
    0
}

// The number of stones of a course, and their total; `faces` are seen marks.
pub fn course_total(
    room: &[usize; 10],
    words: &[u32],
    reals: &[f64],
    office: u32,
    courses: &[u32],
    course: usize,
    faces: &mut [u8],
    value: &mut [u64; 3],
) -> u32
    ensures answer { result ≡ lent course_number room words reals office (was courses) course faces.old }
    ensures slots { value.new ≡ unless_refused result (lent course_slots room words reals office (was courses) course) value.old }
    ensures faces { faces.new ≡ replicate (length faces.old) 0 }
{
    put_sum(
        office_courses::course_total(room, words, reals, office, courses, course, faces),
        value,
    )
}
