// Inner: which courses lent words hold (W-213; specs/Table.antt), whether they can be read, and the entries of a course. `readable` asks for nothing; the others ask for what it has tested.
//
// The family course_: the masons' courses within courses. Callers edit a table by course_edits and ask for a course by office_courses. Read meaning_courses first, then course_table; course_tests and course_stones are the recursions.
#![tactic(auto)]

ghost use Rattle.std.specs.Prelude.{◌≡◌, ◌+◌, ◌*◌, ◌<◌, ◌≤◌, ltb};
ghost use Rattle.meaning.specs.Lists.{all, all_below};
ghost use Rattle.memory_layout.specs.Decode.{list_at};
ghost use Rattle.memory_layout.specs.Fit.{Held};
ghost use Rattle.memory_layout.specs.Layout.{word};
ghost use Rattle.course_table.specs.Facts.{Lies, Rows};
ghost use Rattle.course_table.specs.Table.{course_at, course_ok, courses_ok};

// From here on a word is a course's id, that much above it.
pub const COURSE: u32 = 65536;

// Where course c stands.
pub fn course_at(c: usize) -> usize
    requires { c ≤ 256 }
    ensures { result ≡ course_at c }
{
    1 + 17 * c
}

// The list at a place of the words: its length, then its entries.
fn list_at(courses: &[u32], at: usize) -> &[u32]
    requires { Held courses.now at }
    ensures { result.now ≡ list_at courses.now at }
{
    let n = courses[at] as usize;
    let from = at + 1;
    let end = from + n;
    &courses[from..end]
}

// The entries of course c.
pub fn entries(courses: &[u32], c: usize) -> &[u32]
    requires lies { Lies courses.now c }
    requires c_bound { word courses.now (course_at c) ≤ 16 }
    ensures { result.now ≡ list_at courses.now (course_at c) }
{
    list_at(courses, course_at(c))
}

// Is each entry a body or a course?
fn known(l: &[u32]) -> bool
    ensures { result ≡ all (λ e. ltb e 131072) l.now }
{
    let mut ok = true;
    for e in l {
        ok = ok & (*e < 131072);
    }
    ok
}

// Can course c be read?
fn course_ok(courses: &[u32], c: usize) -> bool
    requires { Lies courses.now c }
    ensures { result ≡ course_ok courses.now c }
{
    if 16 < courses[course_at(c)] {
        return false;
    }
    known(entries(courses, c))
}

// Can the first n courses be read?
fn rows_ok(courses: &[u32], n: usize) -> bool
    requires { Rows courses.now n }
    ensures { result ≡ all_below (course_ok courses.now) n }
{
    let mut ok = true;
    for c in 0..n {
        ok = ok & course_ok(courses, c);
    }
    ok
}

// Can the table be read?
pub fn readable(courses: &[u32]) -> bool
    ensures { result ≡ courses_ok courses.now }
{
    if courses.len() == 0 {
        return false;
    }
    let n = courses[0] as usize;
    if 256 < n {
        return false;
    }
    if courses.len() < course_at(n) {
        return false;
    }
    rows_ok(courses, n)
}
