// What is asked of a body: its three walks, its box, volume and report, the split of an edge, and its back pointers mended.
ghost use Rattle.std.specs.Prelude.{◌≡◌, [], ◌∷◌, length, replicate};
ghost use Rattle.station.specs.Words as said;

use office_walks::{write_edges, write_faces, write_vertices};

// ---- the three walks: how many ids were put into the front of the lent list, and the number in a lent slot

// The faces of a body; `faces` are seen marks.
#[unsafe(no_mangle)]
pub extern "C" fn brunskerl_body_faces(
    room: &[usize; 10],
    words: &[u32],
    reals: &[f64],
    office: u32,
    body: usize,
    faces: &mut [u8],
    out: &mut [u32],
    code: &mut u32,
) -> usize
    ensures count { result ≡ length (said.lent said.office_faces_handed room words reals office body faces.old out.old) }
    ensures list { out.new ≡ said.in_front (said.lent said.office_faces_handed room words reals office body faces.old out.old) out.old }
    ensures code { code.new ≡ said.lent said.office_faces_number room words reals office body faces.old out.old }
    ensures faces { faces.new ≡ replicate (length faces.old) 0 }
{
    write_faces(room, words, reals, office, body, faces, out, code)
}

// The edges of a body; `faces` and `edges` are seen marks.
#[unsafe(no_mangle)]
pub extern "C" fn brunskerl_body_edges(
    room: &[usize; 10],
    words: &[u32],
    reals: &[f64],
    office: u32,
    body: usize,
    faces: &mut [u8],
    edges: &mut [u8],
    out: &mut [u32],
    code: &mut u32,
) -> usize
    ensures count { result ≡ length (said.lent said.office_edges_handed room words reals office body faces.old edges.old out.old) }
    ensures list { out.new ≡ said.in_front (said.lent said.office_edges_handed room words reals office body faces.old edges.old out.old) out.old }
    ensures code { code.new ≡ said.lent said.office_edges_number room words reals office body faces.old edges.old out.old }
    ensures faces { faces.new ≡ replicate (length faces.old) 0 }
    ensures edges { edges.new ≡ replicate (length edges.old) 0 }
{
    write_edges(room, words, reals, office, body, faces, edges, out, code)
}

// The vertices of a body; `faces`, `edges` and `vertices` are seen marks.
#[unsafe(no_mangle)]
pub extern "C" fn brunskerl_body_vertices(
    room: &[usize; 10],
    words: &[u32],
    reals: &[f64],
    office: u32,
    body: usize,
    faces: &mut [u8],
    edges: &mut [u8],
    vertices: &mut [u8],
    out: &mut [u32],
    code: &mut u32,
) -> usize
    ensures count { result ≡ length (said.lent said.office_vertices_handed room words reals office body faces.old edges.old vertices.old out.old) }
    ensures list { out.new ≡ said.in_front (said.lent said.office_vertices_handed room words reals office body faces.old edges.old vertices.old out.old) out.old }
    ensures code { code.new ≡ said.lent said.office_vertices_number room words reals office body faces.old edges.old vertices.old out.old }
    ensures faces { faces.new ≡ replicate (length faces.old) 0 }
    ensures edges { edges.new ≡ replicate (length edges.old) 0 }
    ensures vertices { vertices.new ≡ replicate (length vertices.old) 0 }
{
    write_vertices(
        room, words, reals, office, body, faces, edges, vertices, out, code,
    )
}

// ---- the box and the volume of a body, the split of an edge, and the report of a body

// The two corners of a body's box; `faces`, `edges` and `vertices` are seen marks.
#[unsafe(no_mangle)]
pub extern "C" fn brunskerl_body_bounding_box(
    room: &[usize; 10],
    words: &[u32],
    reals: &[f64],
    office: u32,
    body: usize,
    faces: &mut [u8],
    edges: &mut [u8],
    vertices: &mut [u8],
    value: &mut [f64; 6],
) -> u32
    ensures answer { result ≡ said.lent said.office_box_number room words reals office body faces.old edges.old vertices.old }
    ensures slots { value.new ≡ said.unless_refused result (said.box_value (said.held room words reals) (said.body_for (said.held room words reals) office body)) value.old }
    ensures faces { faces.new ≡ replicate (length faces.old) 0 }
    ensures edges { edges.new ≡ replicate (length edges.old) 0 }
    ensures vertices { vertices.new ≡ replicate (length vertices.old) 0 }
{
    c_measures::box_of(
        room, words, reals, office, body, faces, edges, vertices, value,
    )
}

// The volume of a body; `faces` are seen marks.
#[unsafe(no_mangle)]
pub extern "C" fn brunskerl_body_volume(
    room: &[usize; 10],
    words: &[u32],
    reals: &[f64],
    office: u32,
    body: usize,
    faces: &mut [u8],
    value: &mut [f64; 1],
) -> u32
    ensures answer { result ≡ said.lent said.office_volume_number room words reals office body faces.old }
    ensures slots { value.new ≡ said.unless_refused result (said.volume_value (said.held room words reals) (said.body_for (said.held room words reals) office body)) value.old }
    ensures faces { faces.new ≡ replicate (length faces.old) 0 }
{
    c_measures::volume_of(room, words, reals, office, body, faces, value)
}

// Splits an edge at a fraction of its range: it, the new edge and the new vertex.
#[unsafe(no_mangle)]
pub extern "C" fn brunskerl_split_line_edge(
    room: &[usize; 10],
    words: &mut [u32],
    reals: &mut [f64],
    office: u32,
    edge: usize,
    fraction: f64,
    value: &mut [u32; 3],
) -> u32
    ensures answer { result ≡ said.office_split_number room.now words.old reals.old office edge fraction }
    ensures slots { value.new ≡ said.unless_refused result (edge ∷ said.word words.old said.EDGES ∷ said.word words.old said.VERTICES ∷ []) value.old }
    ensures tables { words.new ≡ said.office_split_words room.now words.old reals.old office edge fraction }
    ensures floats { reals.new ≡ said.office_split_reals room.now words.old reals.old office edge fraction }
{
    c_measures::split_of(room, words, reals, office, edge, fraction, value)
}

// Checks a body, with geometry where that number is not 0, and so many samples to an edge: how many faults there are, how many were kept, how many checks
// could not be made. `list` gets the faults, four words each: kind, class by its table, id, reason; `faces` and `edges` are seen marks.
#[unsafe(no_mangle)]
pub extern "C" fn brunskerl_check_body(
    room: &[usize; 10],
    words: &[u32],
    reals: &[f64],
    office: u32,
    body: usize,
    geometry: u32,
    samples: usize,
    faces: &mut [u8],
    edges: &mut [u8],
    list: &mut [u32],
    value: &mut [usize; 3],
) -> u32
    ensures answer { result ≡ said.lent said.office_check_number room words reals office body (said.asked (said.wanted geometry) samples) faces.old edges.old }
    ensures slots { value.new ≡ said.unless_refused result (said.lent said.report_value room words reals (said.body_for (said.held room words reals) office body) (said.asked (said.wanted geometry) samples) list.old) value.old }
    ensures list { list.new ≡ said.lent said.office_faults room words reals office body (said.asked (said.wanted geometry) samples) faces.old edges.old list.old }
    ensures faces { faces.new ≡ replicate (length faces.old) 0 }
    ensures edges { edges.new ≡ replicate (length edges.old) 0 }
{
    c_measures::report_of(
        room, words, reals, office, body, geometry, samples, faces, edges, list, value,
    )
}

// The first fault of a body's report, or none; `faces` and `edges` are seen marks.
#[unsafe(no_mangle)]
pub extern "C" fn brunskerl_first_fault(
    room: &[usize; 10],
    words: &[u32],
    reals: &[f64],
    office: u32,
    body: usize,
    geometry: u32,
    samples: usize,
    faces: &mut [u8],
    edges: &mut [u8],
    value: &mut [u32; 5],
) -> u32
    ensures answer { result ≡ said.lent said.office_check_number room words reals office body (said.asked (said.wanted geometry) samples) faces.old edges.old }
    ensures slots { value.new ≡ said.unless_refused result (said.lent said.first_value room words reals (said.body_for (said.held room words reals) office body) (said.asked (said.wanted geometry) samples)) value.old }
    ensures faces { faces.new ≡ replicate (length faces.old) 0 }
    ensures edges { edges.new ≡ replicate (length edges.old) 0 }
{
    c_first::first_of(
        room, words, reals, office, body, geometry, samples, faces, edges, value,
    )
}

// 1 where the body is fit to saw, else 0; `faces` and `edges` are seen marks.
#[unsafe(no_mangle)]
pub extern "C" fn brunskerl_fit_to_saw(
    room: &[usize; 10],
    words: &[u32],
    reals: &[f64],
    office: u32,
    body: usize,
    faces: &mut [u8],
    edges: &mut [u8],
    value: &mut [u32; 1],
) -> u32
    ensures answer { result ≡ said.lent said.office_check_number room words reals office body said.sawing faces.old edges.old }
    ensures slots { value.new ≡ said.unless_refused result (said.fit_value (said.held room words reals) (said.body_for (said.held room words reals) office body)) value.old }
    ensures faces { faces.new ≡ replicate (length faces.old) 0 }
    ensures edges { edges.new ≡ replicate (length edges.old) 0 }
{
    c_measures::fit_of(room, words, reals, office, body, faces, edges, value)
}

// ---- back pointers mended from the lists of a body (W-208): the changes listed, and made

// A dry run: the changes of a body, six words each, and how many there are; `marks` are 6,912 bytes at least.
#[unsafe(no_mangle)]
pub extern "C" fn brunskerl_mend_changes(
    room: &[usize; 10],
    words: &[u32],
    reals: &[f64],
    office: u32,
    body: usize,
    marks: &mut [u8],
    list: &mut [u32],
    count: &mut [usize; 1],
) -> u32
    ensures answer { result ≡ said.lent said.office_mend_number room words reals office body marks.old list.old }
    ensures slots { count.new ≡ said.unless_refused result (said.alone (said.lent said.office_mend_count room words reals office body marks.old list.old)) count.old }
    ensures list { list.new ≡ said.lent said.office_mend_list room words reals office body marks.old list.old }
    ensures marks { marks.new ≡ replicate (length marks.old) 0 }
{
    c_mends::mend_changes(room, words, reals, office, body, marks, list, count)
}

// The same changes, listed and made.
#[unsafe(no_mangle)]
pub extern "C" fn brunskerl_mend(
    room: &[usize; 10],
    words: &mut [u32],
    reals: &[f64],
    office: u32,
    body: usize,
    marks: &mut [u8],
    list: &mut [u32],
    count: &mut [usize; 1],
) -> u32
    ensures answer { result ≡ said.office_mend_number room.now words.old reals.now office body marks.old list.old }
    ensures slots { count.new ≡ said.unless_refused result (said.alone (said.office_mend_count room.now words.old reals.now office body marks.old list.old)) count.old }
    ensures list { list.new ≡ said.office_mend_list room.now words.old reals.now office body marks.old list.old }
    ensures tables { words.new ≡ said.office_mend_words room.now words.old reals.now office body marks.old list.old }
    ensures marks { marks.new ≡ replicate (length marks.old) 0 }
{
    c_mends::mend(room, words, reals, office, body, marks, list, count)
}
