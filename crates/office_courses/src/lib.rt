// For callers: how many stones a course has and their exact total (W-213), by the office that asks (W-206). specs/Answers.antt says what it answers.
#![tactic(auto)]

ghost use Rattle.std.specs.Prelude.{◌≡◌, length, replicate};
ghost use Rattle.office_courses.specs.Answers.{course_answer};
ghost use Rattle.office_courses.specs.Told.{tests_number, told_sum};

use course_stones::{CourseSum, course_stones};
use course_tests::course_found;
use memory_layout::names::FACES;
use memory_readable::readable;
use walk_marks::clear;

// Why the stones are not weighed, else 0.
fn course_refusal(
    room: &[usize; 10],
    words: &[u32],
    reals: &[f64],
    office: u32,
    courses: &[u32],
    course: usize,
    faces: &[u8],
) -> u32
    ensures { result ≡ tests_number room.now words.now reals.now office courses.now course faces.now }
{
    if !course_table::readable(courses) {
        return 9;
    }
    if !readable(room, words, reals) {
        return 9;
    }
    if 1 < office {
        return 1;
    }
    if faces.len() < room[FACES] {
        return 8;
    }
    course_found(words, office, courses, 4, course)
}

// What is told of the stones: nothing but the number where one is refused.
fn told(s: CourseSum) -> CourseSum
    ensures { result ≡ told_sum s }
{
    if s.refused != 0 {
        return CourseSum {
            refused: s.refused,
            stones: 0,
            low: 0,
            high: 0,
        };
    }
    CourseSum {
        refused: 0,
        stones: s.stones,
        low: s.low,
        high: s.high,
    }
}

// The number of stones of a course, and their total in two words. `faces` are seen marks.
pub fn course_total(
    room: &[usize; 10],
    words: &[u32],
    reals: &[f64],
    office: u32,
    courses: &[u32],
    course: usize,
    faces: &mut [u8],
) -> CourseSum
    ensures answer { result ≡ course_answer room.now words.now reals.now office courses.now course faces.old }
    ensures faces { faces.new ≡ replicate (length faces.old) 0 }
{
    let n = course_refusal(room, words, reals, office, courses, course, &faces[..]);
    if n != 0 {
        clear(faces);
        return CourseSum {
            refused: n,
            stones: 0,
            low: 0,
            high: 0,
        };
    }
    told(course_stones(room, words, reals, office, courses, course, faces))
}
