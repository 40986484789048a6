// Inner: the stones of a course, counted and added (W-213). Each body's number is worked out once, before, where any course lists it; the recursion over the entries, the levels falling, then adds known numbers.
#![tactic(auto)]

ghost use Rattle.std.specs.Prelude.{◌≡◌, [], ◌∷◌, map, ◌≤◌, ◌<◌, length, replicate};
ghost use Rattle.meaning.specs.Lists.{member};
ghost use Rattle.course_table.specs.Facts.{Laid};
ghost use Rattle.course_table.specs.Table.{entry_of, courses_in};
ghost use Rattle.meaning_courses.specs.Courses.{bodies_in, stones_of};
ghost use Rattle.memory_layout.specs.Layout.{word};
ghost use Rattle.course_stones.specs.Sums.{with_stone, with_body, with_bodies, listed_in, noted_if, stone_for, weighed_numbers, weighed_plus, weighed_minus, within, course_sum};

use course_table::{COURSE, entries};
use inquire_stone::body_stone;
use memory_offices::body_for;
use sheet_words::moved;
use split_segment::refusals::{then, unless};
use walk_marks::clear;

// The first refusal of a stone, or 0; how many stones were added, and their total in two words.
#[derive(Clone, Copy)]
pub struct CourseSum {
    pub refused: u32,
    pub stones: u64,
    pub low: u64,
    pub high: u64,
}

// One stone more, plus - minus, unless it is refused or no room is left for it.
fn with_stone(s: CourseSum, refused: u32, plus: u64, minus: u64) -> CourseSum
    ensures { result ≡ with_stone s refused plus minus }
{
    let n = then(refused, unless(8, s.stones < 65536));
    if n != 0 {
        return CourseSum {
            refused: then(s.refused, n),
            stones: s.stones,
            low: s.low,
            high: s.high,
        };
    }
    let t = moved(s.high, s.low, plus, minus);
    CourseSum {
        refused: s.refused,
        stones: s.stones + 1,
        low: t.low,
        high: t.high,
    }
}

// A body's stone, by the numbers that were worked out; of an id that no body has, 2.
fn with_body(
    refused: &[u32; 64],
    plus: &[u64; 64],
    minus: &[u64; 64],
    s: CourseSum,
    body: usize,
) -> CourseSum
    ensures { result ≡ with_body refused.now plus.now minus.now s body }
{
    if 64 <= body {
        return with_stone(s, 2, 0, 0);
    }
    with_stone(s, refused[body], plus[body], minus[body])
}

// The stones of a course with so many levels, its own the first, added to what was before.
#[cycle(course_sum_entries_sum_entry_sum)]
fn course_sum(
    courses: &[u32],
    refused: &[u32; 64],
    plus: &[u64; 64],
    minus: &[u64; 64],
    before: CourseSum,
    levels: u32,
    course: usize,
) -> CourseSum
    requires { Laid courses.now }
    ensures { result ≡ with_bodies refused.now plus.now minus.now before (stones_of (courses_in courses.now) levels course) }
{
    if levels == 0 {
        return before;
    }
    if courses[0] as usize <= course {
        return before;
    }
    entries_sum(
        courses,
        refused,
        plus,
        minus,
        before,
        levels - 1,
        entries(courses, course),
    )
}

// Those of entries, of which a course has so many levels left.
#[cycle(course_sum_entries_sum_entry_sum)]
fn entries_sum(
    courses: &[u32],
    refused: &[u32; 64],
    plus: &[u64; 64],
    minus: &[u64; 64],
    before: CourseSum,
    left: u32,
    l: &[u32],
) -> CourseSum
    requires { Laid courses.now }
    ensures { result ≡ with_bodies refused.now plus.now minus.now before (bodies_in (within (courses_in courses.now) left) (map entry_of l.now)) }
{
    let mut s = before;
    for e in l {
        s = entry_sum(courses, refused, plus, minus, s, left, *e);
    }
    s
}

// Those of one entry.
#[cycle(course_sum_entries_sum_entry_sum)]
fn entry_sum(
    courses: &[u32],
    refused: &[u32; 64],
    plus: &[u64; 64],
    minus: &[u64; 64],
    s: CourseSum,
    left: u32,
    e: u32,
) -> CourseSum
    requires { Laid courses.now }
    ensures { result ≡ with_bodies refused.now plus.now minus.now s (bodies_in (within (courses_in courses.now) left) (entry_of e ∷ [])) }
{
    if e < COURSE {
        return with_body(refused, plus, minus, s, e as usize);
    }
    course_sum(
        courses,
        refused,
        plus,
        minus,
        s,
        left,
        (e - COURSE) as usize,
    )
}

// Is the body an entry?
fn lists_body(l: &[u32], body: usize) -> bool
    ensures { result ≡ member body l.now }
{
    let mut found = false;
    for e in l {
        found = found | (body == *e as usize);
    }
    found
}

// Is the body an entry of any course?
fn listed(courses: &[u32], body: usize) -> bool
    requires { Laid courses.now }
    ensures { result ≡ listed_in courses.now body }
{
    let n = courses[0] as usize;
    let mut found = false;
    for c in 0..n {
        found = found | lists_body(entries(courses, c), body);
    }
    found
}

// The number of a body that is wanted, as it is for the office. `faces` are seen marks, all zero.
fn weigh_one(
    room: &[usize; 10],
    words: &[u32],
    reals: &[f64],
    office: u32,
    wanted: bool,
    b: usize,
    faces: &mut [u8],
    refused: &mut [u32; 64],
    plus: &mut [u64; 64],
    minus: &mut [u64; 64],
)
    requires b_bound { b < 64 }
    requires faces_value { faces.old ≡ replicate (length faces.old) 0 }
    ensures numbers { refused.new ≡ noted_if wanted b (stone_for room.now words.now reals.now office faces.old b).refused refused.old }
    ensures above { plus.new ≡ noted_if wanted b (stone_for room.now words.now reals.now office faces.old b).plus plus.old }
    ensures below { minus.new ≡ noted_if wanted b (stone_for room.now words.now reals.now office faces.old b).minus minus.old }
    ensures faces { faces.new ≡ faces.old }
{
    if !wanted {
        return;
    }
    let seen = body_for(words, office, b);
    let stone = body_stone(room, words, reals, seen, faces);
    refused[b] = stone.refused;
    plus[b] = stone.plus;
    minus[b] = stone.minus;
}

// The numbers of those of the first n bodies that a course lists.
fn weigh(
    room: &[usize; 10],
    words: &[u32],
    reals: &[f64],
    office: u32,
    courses: &[u32],
    n: usize,
    faces: &mut [u8],
    refused: &mut [u32; 64],
    plus: &mut [u64; 64],
    minus: &mut [u64; 64],
)
    requires n_bound { n ≤ 64 }
    requires laid { Laid courses.now }
    requires faces_value { faces.old ≡ replicate (length faces.old) 0 }
    ensures numbers { refused.new ≡ weighed_numbers room.now words.now reals.now office faces.old courses.now n refused.old }
    ensures above { plus.new ≡ weighed_plus room.now words.now reals.now office faces.old courses.now n plus.old }
    ensures below { minus.new ≡ weighed_minus room.now words.now reals.now office faces.old courses.now n minus.old }
    ensures faces { faces.new ≡ faces.old }
{
    for b in 0..n {
        weigh_one(
            room,
            words,
            reals,
            office,
            listed(courses, b),
            b,
            faces,
            refused,
            plus,
            minus,
        );
    }
}

// The stones of a course of four levels. `faces` are seen marks.
pub fn course_stones(
    room: &[usize; 10],
    words: &[u32],
    reals: &[f64],
    office: u32,
    courses: &[u32],
    course: usize,
    faces: &mut [u8],
) -> CourseSum
    requires in_bounds { (1 ≤ length words.now) × (word words.now 0 ≤ 64) }
    requires laid { Laid courses.now }
    ensures answer { result ≡ course_sum room.now words.now reals.now office courses.now course (replicate (length faces.old) 0) }
    ensures faces { faces.new ≡ replicate (length faces.old) 0 }
{
    let mut refused = [0u32; 64];
    let mut plus = [0u64; 64];
    let mut minus = [0u64; 64];
    let n = words[0] as usize;
    clear(faces);
    weigh(
        room,
        words,
        reals,
        office,
        courses,
        n,
        faces,
        &mut refused,
        &mut plus,
        &mut minus,
    );
    let none = CourseSum {
        refused: 0,
        stones: 0,
        low: 0,
        high: 0,
    };
    course_sum(courses, &refused, &plus, &minus, none, 4, course)
}
