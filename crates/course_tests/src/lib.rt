// Inner: what refuses a course before its stones are weighed (W-213): 2 for a course or a body missing within the levels, else 1 for a course listed beyond them.
#![tactic(auto)]

ghost use Rattle.std.specs.Prelude.{◌≡◌, List, map, ℕ, ◌≤◌, Float, length};
ghost use Rattle.course_table.specs.Facts.{Laid};
ghost use Rattle.course_table.specs.Table.{entry_of, courses_in};
ghost use Rattle.memory_layout.specs.Decode.{decode};
ghost use Rattle.course_tests.specs.Found.{worse, body_found, entry_found, entries_found, course_found};

use course_table::{COURSE, entries};
use memory_offices::body_for;

// The larger number: 2 stands before 1, wherever each was met.
fn worse_of(a: u32, b: u32) -> u32
    ensures { result ≡ worse a b }
{
    if a < b {
        return b;
    }
    a
}

// 2 for a body that is not there for the office.
fn body_found(words: &[u32], office: u32, body: usize) -> u32
    requires { 1 ≤ length words.now }
    ensures { (room : List ℕ) (x : List Float) → result ≡ body_found (decode room words.now x) office body }
{
    if body_for(words, office, body) < words[0] as usize {
        return 0;
    }
    2
}

// What is found of a course with so many levels, its own the first.
#[cycle(course_found_entries_found_entry_found)]
pub fn course_found(words: &[u32], office: u32, courses: &[u32], levels: u32, course: usize) -> u32
    requires in_bounds { 1 ≤ length words.now }
    requires laid { Laid courses.now }
    ensures { (room : List ℕ) (x : List Float) → result ≡ course_found (decode room words.now x) office (courses_in courses.now) levels course }
{
    if levels == 0 {
        return 1;
    }
    if courses[0] as usize <= course {
        return 2;
    }
    entries_found(words, office, courses, levels - 1, entries(courses, course))
}

// Of entries, of which a course has so many levels left.
#[cycle(course_found_entries_found_entry_found)]
fn entries_found(words: &[u32], office: u32, courses: &[u32], left: u32, l: &[u32]) -> u32
    requires in_bounds { 1 ≤ length words.now }
    requires laid { Laid courses.now }
    ensures { (room : List ℕ) (x : List Float) → result ≡ entries_found (decode room words.now x) office (courses_in courses.now) left (map entry_of l.now) }
{
    let mut worst = 0;
    for e in l {
        worst = worse_of(worst, entry_found(words, office, courses, left, *e));
    }
    worst
}

// Of one entry.
#[cycle(course_found_entries_found_entry_found)]
fn entry_found(words: &[u32], office: u32, courses: &[u32], left: u32, e: u32) -> u32
    requires in_bounds { 1 ≤ length words.now }
    requires laid { Laid courses.now }
    ensures { (room : List ℕ) (x : List Float) → result ≡ entry_found (decode room words.now x) office (courses_in courses.now) left (entry_of e) }
{
    if e < COURSE {
        return body_found(words, office, e as usize);
    }
    course_found(words, office, courses, left, (e - COURSE) as usize)
}
