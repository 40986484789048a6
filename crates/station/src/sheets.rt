// What the yard and the masons ask: the stone sheet, the courses and the slab profile.
ghost use Rattle.std.specs.Prelude.{◌≡◌, true, [], ◌∷◌, length, replicate};
ghost use Rattle.station.specs.Words as said;

// ---- the stone sheet in whole numbers: a body taken in on it

// Takes a body in on the sheet: the number of stones, the total in two words, the body and the number of the largest stone; `faces` are seen marks.
#[unsafe(no_mangle)]
pub extern "C" fn brunskerl_sheet_take(
    room: &[usize; 10],
    words: &[u32],
    reals: &[f64],
    office: u32,
    body: usize,
    faces: &mut [u8],
    sheet: &mut [u64; 5],
) -> u32
    ensures answer { result ≡ said.lent said.take_number room words reals office body faces.old (said.sheet_in sheet.old) }
    ensures slots { sheet.new ≡ said.sheet_out (said.lent said.taken_sheet room words reals office body faces.old (said.sheet_in sheet.old)) }
    ensures faces { faces.new ≡ replicate (length faces.old) 0 }
{
    c_sheets::take(room, words, reals, office, body, faces, sheet)
}

// ---- the masons' courses: a table made and edited, and the stones of a course

// An empty course table.
#[unsafe(no_mangle)]
pub extern "C" fn brunskerl_make_courses(courses: &mut [u32]) -> u32
    ensures answer { result ≡ said.make_courses_number courses.old }
    ensures table { courses.new ≡ said.made_words courses.old }
{
    course_edits::make_courses(courses)
}

// An empty course more, and its id.
#[unsafe(no_mangle)]
pub extern "C" fn brunskerl_insert_course(courses: &mut [u32], value: &mut [u32; 1]) -> u32
    ensures answer { result ≡ said.insert_course_number courses.old }
    ensures table { courses.new ≡ said.inserted_words courses.old }
    ensures slots { value.new ≡ said.unless_refused result (said.alone (said.word courses.old 0)) value.old }
{
    course_edits::insert_course(courses, value)
}

// An entry more at the end of a course: a body, tag 0, or a course, tag 1.
#[unsafe(no_mangle)]
pub extern "C" fn brunskerl_append_course_entry(
    courses: &mut [u32],
    course: usize,
    tag: u32,
    id: u32,
) -> u32
    ensures answer { result ≡ said.append_number courses.old course tag id }
    ensures table { courses.new ≡ said.appended_words courses.old course tag id }
{
    course_edits::append_entry(courses, course, tag, id)
}

// Another entry at a place of a course.
#[unsafe(no_mangle)]
pub extern "C" fn brunskerl_put_course_entry(
    courses: &mut [u32],
    course: usize,
    place: usize,
    tag: u32,
    id: u32,
) -> u32
    ensures answer { result ≡ said.put_number courses.old course place tag id }
    ensures table { courses.new ≡ said.put_words courses.old course place tag id }
{
    course_edits::put_entry(courses, course, place, tag, id)
}

// Without the entry at a place of a course.
#[unsafe(no_mangle)]
pub extern "C" fn brunskerl_strike_course_entry(
    courses: &mut [u32],
    course: usize,
    place: usize,
) -> u32
    ensures answer { result ≡ said.strike_number courses.old course place }
    ensures table { courses.new ≡ said.struck_words courses.old course place }
{
    course_edits::strike_entry(courses, course, place)
}

// How many courses there are.
#[unsafe(no_mangle)]
pub extern "C" fn brunskerl_course_count(courses: &[u32], value: &mut [u32; 1]) -> u32
    ensures answer { result ≡ said.count_number (said.was courses) }
    ensures slots { value.new ≡ said.unless_refused result (said.alone (said.word (said.was courses) 0)) value.old }
{
    course_edits::course_count(courses, value)
}

// How many entries a course has.
#[unsafe(no_mangle)]
pub extern "C" fn brunskerl_course_length(
    courses: &[u32],
    course: usize,
    value: &mut [u32; 1],
) -> u32
    ensures answer { result ≡ said.open_number (said.was courses) true course }
    ensures slots { value.new ≡ said.unless_refused result (said.alone (said.length_of (said.was courses) course)) value.old }
{
    course_edits::course_length(courses, course, value)
}

// The entry at a place of a course, its tag and its id.
#[unsafe(no_mangle)]
pub extern "C" fn brunskerl_course_entry(
    courses: &[u32],
    course: usize,
    place: usize,
    value: &mut [u32; 2],
) -> u32
    ensures answer { result ≡ said.strike_number (said.was courses) course place }
    ensures slots { value.new ≡ said.unless_refused result (said.tag_of (said.entry_at (said.was courses) course place) ∷ said.id_of (said.entry_at (said.was courses) course place) ∷ []) value.old }
{
    course_edits::course_entry(courses, course, place, value)
}

// The number of stones of a course, and their total in two words; `faces` are seen marks.
#[unsafe(no_mangle)]
pub extern "C" fn brunskerl_course_total(
    room: &[usize; 10],
    words: &[u32],
    reals: &[f64],
    office: u32,
    courses: &[u32],
    course: usize,
    faces: &mut [u8],
    value: &mut [u64; 3],
) -> u32
    ensures answer { result ≡ said.lent said.course_number room words reals office (said.was courses) course faces.old }
    ensures slots { value.new ≡ said.unless_refused result (said.lent said.course_slots room words reals office (said.was courses) course) value.old }
    ensures faces { faces.new ≡ replicate (length faces.old) 0 }
{
    c_courses::course_total(room, words, reals, office, courses, course, faces, value)
}

// ---- the slab profile of a body: accepted, with the areas of its faces, or the first broken rule

// The broken rule and the entity that breaks it, or two zeros, and the area in all; of an accepted body the area of each face in the front of the list. `faces` and `edges` are seen
// marks.
#[unsafe(no_mangle)]
pub extern "C" fn brunskerl_slab_profile(
    room: &[usize; 10],
    words: &[u32],
    reals: &[f64],
    office: u32,
    body: usize,
    faces: &mut [u8],
    edges: &mut [u8],
    areas: &mut [u64],
    value: &mut [u64; 3],
) -> u32
    ensures answer { result ≡ said.lent said.office_profile_number room words reals office body faces.old edges.old areas.old }
    ensures slots { value.new ≡ said.unless_refused result (said.profile_value (said.lent said.profile_asked room words reals office body)) value.old }
    ensures areas { areas.new ≡ said.lent said.office_areas room words reals office body faces.old edges.old areas.old }
    ensures faces { faces.new ≡ replicate (length faces.old) 0 }
    ensures edges { edges.new ≡ replicate (length edges.old) 0 }
{
    c_slabs::profile_of(room, words, reals, office, body, faces, edges, areas, value)
}
