// For callers: a course table made, a course more, its entries appended, put and struck, and what stands in it (W-213). specs/Answers.antt says what each answers and leaves. Inner: what refuses them, and an entry as a word.
#![tactic(auto)]

ghost use Rattle.std.specs.Prelude.{◌≡◌, true, [], ◌∷◌, ◌<◌, ◌≤◌};
ghost use Rattle.memory_layout.specs.Layout.{word};
ghost use Rattle.memory_writes.specs.Put.{unless_refused};
ghost use Rattle.course_edits.specs.Answers.{entry_good, entry_word, tag_of, id_of, open_number, place_number, room_number, make_number, made_words, count_number, insert_number, inserted_words, append_number, appended_words, put_number, put_words, strike_number, struck_words, length_of, entry_at};

use course_table::{COURSE, course_at, entries, readable};
use edit_lists::places::{append_at, put_at, strike_at};

// Is it the tag and the id of an entry: 0 for a body, 1 for a course, and an id below 65,536?
fn entry_good(tag: u32, id: u32) -> bool
    ensures { result ≡ entry_good tag id }
{
    (tag <= 1) & (id < COURSE)
}

// Its word.
fn entry_word(tag: u32, id: u32) -> u32
    requires { (tag ≤ 1) × (id < 65536) }
    ensures { result ≡ entry_word tag id }
{
    tag * COURSE + id
}

// Why a course is not looked at, else 0: 9, 1 for what is no entry, 2 for a missing course.
fn open_refusal(courses: &[u32], good: bool, course: usize) -> u32
    ensures { result ≡ open_number courses.now good course }
{
    if !readable(courses) {
        return 9;
    }
    if !good {
        return 1;
    }
    if courses[0] as usize <= course {
        return 2;
    }
    0
}

// Why there is no entry at a place of a course, else 0.
fn place_refusal(courses: &[u32], good: bool, course: usize, place: usize) -> u32
    ensures { result ≡ place_number courses.now good course place }
{
    let n = open_refusal(courses, good, course);
    if n != 0 {
        return n;
    }
    if courses[course_at(course)] as usize <= place {
        return 1;
    }
    0
}

// Why a course takes no entry more, else 0.
fn room_refusal(courses: &[u32], good: bool, course: usize) -> u32
    ensures { result ≡ room_number courses.now good course }
{
    let n = open_refusal(courses, good, course);
    if n != 0 {
        return n;
    }
    if 16 <= courses[course_at(course)] {
        return 8;
    }
    0
}

// Why no course more is made, else 0.
fn insert_refusal(courses: &[u32]) -> u32
    ensures { result ≡ insert_number courses.now }
{
    if !readable(courses) {
        return 9;
    }
    let n = courses[0] as usize;
    if 256 <= n {
        return 8;
    }
    if courses.len() < course_at(n + 1) {
        return 8;
    }
    0
}

// An empty table: 0, or the refusal's number.
pub fn make_courses(courses: &mut [u32]) -> u32
    ensures answer { result ≡ make_number courses.old }
    ensures table { courses.new ≡ made_words courses.old }
{
    if courses.len() == 0 {
        return 9;
    }
    courses[0] = 0;
    0
}

// An empty course more, and its id: 0, or the refusal's number.
pub fn insert_course(courses: &mut [u32], value: &mut [u32; 1]) -> u32
    ensures answer { result ≡ insert_number courses.old }
    ensures table { courses.new ≡ inserted_words courses.old }
    ensures slots { value.new ≡ unless_refused result (word courses.old 0 ∷ []) value.old }
{
    let n = insert_refusal(&courses[..]);
    if n != 0 {
        return n;
    }
    let id = courses[0];
    let at = course_at(id as usize);
    courses[at] = 0;
    courses[0] = id + 1;
    *value = [id];
    0
}

// An entry more at the end of a course: 0, or the refusal's number.
pub fn append_entry(courses: &mut [u32], course: usize, tag: u32, id: u32) -> u32
    ensures answer { result ≡ append_number courses.old course tag id }
    ensures table { courses.new ≡ appended_words courses.old course tag id }
{
    let n = room_refusal(&courses[..], entry_good(tag, id), course);
    if n != 0 {
        return n;
    }
    append_at(courses, course_at(course), entry_word(tag, id));
    0
}

// Another entry at a place of a course: 0, or the refusal's number.
pub fn put_entry(courses: &mut [u32], course: usize, place: usize, tag: u32, id: u32) -> u32
    ensures answer { result ≡ put_number courses.old course place tag id }
    ensures table { courses.new ≡ put_words courses.old course place tag id }
{
    let n = place_refusal(&courses[..], entry_good(tag, id), course, place);
    if n != 0 {
        return n;
    }
    put_at(courses, course_at(course), place, entry_word(tag, id));
    0
}

// Without the entry at a place of a course: 0, or the refusal's number.
pub fn strike_entry(courses: &mut [u32], course: usize, place: usize) -> u32
    ensures answer { result ≡ strike_number courses.old course place }
    ensures table { courses.new ≡ struck_words courses.old course place }
{
    let n = place_refusal(&courses[..], true, course, place);
    if n != 0 {
        return n;
    }
    strike_at(courses, course_at(course), place);
    0
}

// How many courses there are: 0, or the refusal's number.
pub fn course_count(courses: &[u32], value: &mut [u32; 1]) -> u32
    ensures answer { result ≡ count_number courses.now }
    ensures slots { value.new ≡ unless_refused result (word courses.now 0 ∷ []) value.old }
{
    if !readable(courses) {
        return 9;
    }
    *value = [courses[0]];
    0
}

// How many entries a course has: 0, or the refusal's number.
pub fn course_length(courses: &[u32], course: usize, value: &mut [u32; 1]) -> u32
    ensures answer { result ≡ open_number courses.now true course }
    ensures slots { value.new ≡ unless_refused result (length_of courses.now course ∷ []) value.old }
{
    let n = open_refusal(courses, true, course);
    if n != 0 {
        return n;
    }
    *value = [courses[course_at(course)]];
    0
}

// The entry at a place of a course, its tag and its id: 0, or the refusal's number.
pub fn course_entry(courses: &[u32], course: usize, place: usize, value: &mut [u32; 2]) -> u32
    ensures answer { result ≡ strike_number courses.now course place }
    ensures slots { value.new ≡ unless_refused result (tag_of (entry_at courses.now course place) ∷ id_of (entry_at courses.now course place) ∷ []) value.old }
{
    let n = place_refusal(courses, true, course, place);
    if n != 0 {
        return n;
    }
    let e = entries(courses, course)[place];
    if e < COURSE {
        *value = [0, e];
        return 0;
    }
    *value = [1, e - COURSE];
    0
}
