// What changes the records one by one: inserts, edits of their fields, and the entries of their lists.
ghost use Rattle.std.specs.Prelude.{◌≡◌, true, [], ◌∷◌};
ghost use Rattle.station.specs.Words as said;

use office_bodies::{append_entry, put_entry, strike_entry};

// ---- inserts: the new record's id in a lent slot

#[unsafe(no_mangle)]
pub extern "C" fn brunskerl_insert_body(
    room: &[usize; 10],
    words: &mut [u32],
    reals: &mut [f64],
    office: u32,
    value: &[u32; 1],
    id: &mut [u32; 1],
) -> u32
    ensures answer { result ≡ said.insert_number room.now words.old reals.old (said.body_in office (said.was value)) said.BODIES }
    ensures slots { id.new ≡ said.unless_refused result (said.word words.old said.BODIES ∷ []) id.old }
    ensures tables { words.new ≡ said.insert_words room.now words.old reals.old (said.body_in office (said.was value)) said.BODIES (said.body_given office (said.was value)) }
    ensures floats { reals.new ≡ said.insert_reals room.now words.old reals.old (said.body_in office (said.was value)) said.BODIES [] }
{
    c_inserts::body(room, words, reals, office, value, id)
}

#[unsafe(no_mangle)]
pub extern "C" fn brunskerl_insert_region(
    room: &[usize; 10],
    words: &mut [u32],
    reals: &mut [f64],
    value: &[u32; 2],
    id: &mut [u32; 1],
) -> u32
    ensures answer { result ≡ said.insert_number room.now words.old reals.old (said.region_known (said.was value)) said.REGIONS }
    ensures slots { id.new ≡ said.unless_refused result (said.word words.old said.REGIONS ∷ []) id.old }
    ensures tables { words.new ≡ said.insert_words room.now words.old reals.old (said.region_known (said.was value)) said.REGIONS (said.region_given (said.was value)) }
    ensures floats { reals.new ≡ said.insert_reals room.now words.old reals.old (said.region_known (said.was value)) said.REGIONS [] }
{
    c_inserts::region(room, words, reals, value, id)
}

#[unsafe(no_mangle)]
pub extern "C" fn brunskerl_insert_shell(
    room: &[usize; 10],
    words: &mut [u32],
    reals: &mut [f64],
    value: &[u32; 1],
    id: &mut [u32; 1],
) -> u32
    ensures answer { result ≡ said.insert_number room.now words.old reals.old true said.SHELLS }
    ensures slots { id.new ≡ said.unless_refused result (said.word words.old said.SHELLS ∷ []) id.old }
    ensures tables { words.new ≡ said.insert_words room.now words.old reals.old true said.SHELLS (said.shell_given (said.was value)) }
    ensures floats { reals.new ≡ said.insert_reals room.now words.old reals.old true said.SHELLS [] }
{
    c_inserts::shell(room, words, reals, value, id)
}

#[unsafe(no_mangle)]
pub extern "C" fn brunskerl_insert_face(
    room: &[usize; 10],
    words: &mut [u32],
    reals: &mut [f64],
    value: &[u32; 7],
    id: &mut [u32; 1],
) -> u32
    ensures answer { result ≡ said.insert_number room.now words.old reals.old (said.face_known (said.was value)) said.FACES }
    ensures slots { id.new ≡ said.unless_refused result (said.word words.old said.FACES ∷ []) id.old }
    ensures tables { words.new ≡ said.insert_words room.now words.old reals.old (said.face_known (said.was value)) said.FACES (said.face_given (said.was value)) }
    ensures floats { reals.new ≡ said.insert_reals room.now words.old reals.old (said.face_known (said.was value)) said.FACES [] }
{
    c_inserts::face(room, words, reals, value, id)
}

#[unsafe(no_mangle)]
pub extern "C" fn brunskerl_insert_loop(
    room: &[usize; 10],
    words: &mut [u32],
    reals: &mut [f64],
    value: &[u32; 1],
    id: &mut [u32; 1],
) -> u32
    ensures answer { result ≡ said.insert_number room.now words.old reals.old true said.LOOPS }
    ensures slots { id.new ≡ said.unless_refused result (said.word words.old said.LOOPS ∷ []) id.old }
    ensures tables { words.new ≡ said.insert_words room.now words.old reals.old true said.LOOPS (said.loop_given (said.was value)) }
    ensures floats { reals.new ≡ said.insert_reals room.now words.old reals.old true said.LOOPS [] }
{
    c_inserts::loop_(room, words, reals, value, id)
}

#[unsafe(no_mangle)]
pub extern "C" fn brunskerl_insert_fin(
    room: &[usize; 10],
    words: &mut [u32],
    reals: &mut [f64],
    value: &[u32; 4],
    id: &mut [u32; 1],
) -> u32
    ensures answer { result ≡ said.insert_number room.now words.old reals.old (said.fin_known (said.was value)) said.FINS }
    ensures slots { id.new ≡ said.unless_refused result (said.word words.old said.FINS ∷ []) id.old }
    ensures tables { words.new ≡ said.insert_words room.now words.old reals.old (said.fin_known (said.was value)) said.FINS (said.fin_given (said.was value)) }
    ensures floats { reals.new ≡ said.insert_reals room.now words.old reals.old (said.fin_known (said.was value)) said.FINS [] }
{
    c_inserts::fin(room, words, reals, value, id)
}

#[unsafe(no_mangle)]
pub extern "C" fn brunskerl_insert_edge(
    room: &[usize; 10],
    words: &mut [u32],
    reals: &mut [f64],
    value: &[u32; 7],
    floats: &[f64; 1],
    id: &mut [u32; 1],
) -> u32
    ensures answer { result ≡ said.insert_number room.now words.old reals.old (said.edge_good (said.was value) (said.was floats)) said.EDGES }
    ensures slots { id.new ≡ said.unless_refused result (said.word words.old said.EDGES ∷ []) id.old }
    ensures tables { words.new ≡ said.insert_words room.now words.old reals.old (said.edge_good (said.was value) (said.was floats)) said.EDGES (said.edge_given (said.was value) (said.was floats)) }
    ensures floats { reals.new ≡ said.insert_reals room.now words.old reals.old (said.edge_good (said.was value) (said.was floats)) said.EDGES (said.edge_own (said.was value) (said.was floats)) }
{
    c_inserts::edge(room, words, reals, value, floats, id)
}

#[unsafe(no_mangle)]
pub extern "C" fn brunskerl_insert_vertex(
    room: &[usize; 10],
    words: &mut [u32],
    reals: &mut [f64],
    value: &[u32; 1],
    floats: &[f64; 4],
    id: &mut [u32; 1],
) -> u32
    ensures answer { result ≡ said.insert_number room.now words.old reals.old (said.vertex_good (said.was value) (said.was floats)) said.VERTICES }
    ensures slots { id.new ≡ said.unless_refused result (said.word words.old said.VERTICES ∷ []) id.old }
    ensures tables { words.new ≡ said.insert_words room.now words.old reals.old (said.vertex_good (said.was value) (said.was floats)) said.VERTICES (said.vertex_given (said.was value) (said.was floats)) }
    ensures floats { reals.new ≡ said.insert_reals room.now words.old reals.old (said.vertex_good (said.was value) (said.was floats)) said.VERTICES (said.vertex_own (said.was value) (said.was floats)) }
{
    c_inserts::vertex(room, words, reals, value, floats, id)
}

#[unsafe(no_mangle)]
pub extern "C" fn brunskerl_insert_curve(
    room: &[usize; 10],
    words: &mut [u32],
    reals: &mut [f64],
    value: &[u32; 1],
    floats: &[f64; 6],
    id: &mut [u32; 1],
) -> u32
    ensures answer { result ≡ said.insert_number room.now words.old reals.old (said.carrier_known (said.was value)) said.CURVES }
    ensures slots { id.new ≡ said.unless_refused result (said.word words.old said.CURVES ∷ []) id.old }
    ensures tables { words.new ≡ said.insert_words room.now words.old reals.old (said.carrier_known (said.was value)) said.CURVES (said.carrier_given (said.was value) (said.was floats)) }
    ensures floats { reals.new ≡ said.insert_reals room.now words.old reals.old (said.carrier_known (said.was value)) said.CURVES (said.carrier_own (said.was value) (said.was floats)) }
{
    c_inserts::curve(room, words, reals, value, floats, id)
}

#[unsafe(no_mangle)]
pub extern "C" fn brunskerl_insert_surface(
    room: &[usize; 10],
    words: &mut [u32],
    reals: &mut [f64],
    value: &[u32; 1],
    floats: &[f64; 6],
    id: &mut [u32; 1],
) -> u32
    ensures answer { result ≡ said.insert_number room.now words.old reals.old (said.carrier_known (said.was value)) said.SURFACES }
    ensures slots { id.new ≡ said.unless_refused result (said.word words.old said.SURFACES ∷ []) id.old }
    ensures tables { words.new ≡ said.insert_words room.now words.old reals.old (said.carrier_known (said.was value)) said.SURFACES (said.carrier_given (said.was value) (said.was floats)) }
    ensures floats { reals.new ≡ said.insert_reals room.now words.old reals.old (said.carrier_known (said.was value)) said.SURFACES (said.carrier_own (said.was value) (said.was floats)) }
{
    c_inserts::surface(room, words, reals, value, floats, id)
}

// ---- edits of a record's fields

#[unsafe(no_mangle)]
pub extern "C" fn brunskerl_set_body(
    room: &[usize; 10],
    words: &mut [u32],
    reals: &mut [f64],
    office: u32,
    id: usize,
    value: &[u32; 1],
) -> u32
    ensures answer { result ≡ said.edit_number room.now words.old reals.old (said.body_in office (said.was value)) said.BODIES (said.body_for (said.decode room.now words.old reals.old) office id) }
    ensures tables { words.new ≡ said.edit_words room.now words.old reals.old (said.body_in office (said.was value)) said.BODIES (said.body_for (said.decode room.now words.old reals.old) office id) 0 (said.kind_given (said.was value)) }
    ensures floats { reals.new ≡ said.edit_reals room.now words.old reals.old (said.body_in office (said.was value)) said.BODIES (said.body_for (said.decode room.now words.old reals.old) office id) [] }
{
    c_sets::body(room, words, reals, office, id, value)
}

#[unsafe(no_mangle)]
pub extern "C" fn brunskerl_set_region(
    room: &[usize; 10],
    words: &mut [u32],
    reals: &mut [f64],
    id: usize,
    value: &[u32; 2],
) -> u32
    ensures answer { result ≡ said.edit_number room.now words.old reals.old (said.region_known (said.was value)) said.REGIONS id }
    ensures tables { words.new ≡ said.edit_words room.now words.old reals.old (said.region_known (said.was value)) said.REGIONS id 0 (said.region_given (said.was value)) }
    ensures floats { reals.new ≡ said.edit_reals room.now words.old reals.old (said.region_known (said.was value)) said.REGIONS id [] }
{
    c_sets::region(room, words, reals, id, value)
}

#[unsafe(no_mangle)]
pub extern "C" fn brunskerl_set_shell(
    room: &[usize; 10],
    words: &mut [u32],
    reals: &mut [f64],
    id: usize,
    value: &[u32; 1],
) -> u32
    ensures answer { result ≡ said.edit_number room.now words.old reals.old true said.SHELLS id }
    ensures tables { words.new ≡ said.edit_words room.now words.old reals.old true said.SHELLS id 0 (said.shell_given (said.was value)) }
    ensures floats { reals.new ≡ said.edit_reals room.now words.old reals.old true said.SHELLS id [] }
{
    c_sets::shell(room, words, reals, id, value)
}

#[unsafe(no_mangle)]
pub extern "C" fn brunskerl_set_face(
    room: &[usize; 10],
    words: &mut [u32],
    reals: &mut [f64],
    id: usize,
    value: &[u32; 7],
) -> u32
    ensures answer { result ≡ said.edit_number room.now words.old reals.old (said.face_known (said.was value)) said.FACES id }
    ensures tables { words.new ≡ said.edit_words room.now words.old reals.old (said.face_known (said.was value)) said.FACES id 0 (said.face_given (said.was value)) }
    ensures floats { reals.new ≡ said.edit_reals room.now words.old reals.old (said.face_known (said.was value)) said.FACES id [] }
{
    c_sets::face(room, words, reals, id, value)
}

#[unsafe(no_mangle)]
pub extern "C" fn brunskerl_set_loop(
    room: &[usize; 10],
    words: &mut [u32],
    reals: &mut [f64],
    id: usize,
    value: &[u32; 1],
) -> u32
    ensures answer { result ≡ said.edit_number room.now words.old reals.old true said.LOOPS id }
    ensures tables { words.new ≡ said.edit_words room.now words.old reals.old true said.LOOPS id 0 (said.loop_given (said.was value)) }
    ensures floats { reals.new ≡ said.edit_reals room.now words.old reals.old true said.LOOPS id [] }
{
    c_sets::loop_(room, words, reals, id, value)
}

#[unsafe(no_mangle)]
pub extern "C" fn brunskerl_set_fin(
    room: &[usize; 10],
    words: &mut [u32],
    reals: &mut [f64],
    id: usize,
    value: &[u32; 4],
) -> u32
    ensures answer { result ≡ said.edit_number room.now words.old reals.old (said.fin_known (said.was value)) said.FINS id }
    ensures tables { words.new ≡ said.edit_words room.now words.old reals.old (said.fin_known (said.was value)) said.FINS id 0 (said.fin_given (said.was value)) }
    ensures floats { reals.new ≡ said.edit_reals room.now words.old reals.old (said.fin_known (said.was value)) said.FINS id [] }
{
    c_sets::fin(room, words, reals, id, value)
}

#[unsafe(no_mangle)]
pub extern "C" fn brunskerl_set_edge(
    room: &[usize; 10],
    words: &mut [u32],
    reals: &mut [f64],
    id: usize,
    value: &[u32; 7],
    floats: &[f64; 1],
) -> u32
    ensures answer { result ≡ said.edit_number room.now words.old reals.old (said.edge_good (said.was value) (said.was floats)) said.EDGES id }
    ensures tables { words.new ≡ said.edit_words room.now words.old reals.old (said.edge_good (said.was value) (said.was floats)) said.EDGES id 0 (said.edge_given (said.was value) (said.was floats)) }
    ensures floats { reals.new ≡ said.edit_reals room.now words.old reals.old (said.edge_good (said.was value) (said.was floats)) said.EDGES id (said.edge_own (said.was value) (said.was floats)) }
{
    c_sets::edge(room, words, reals, id, value, floats)
}

#[unsafe(no_mangle)]
pub extern "C" fn brunskerl_set_vertex(
    room: &[usize; 10],
    words: &mut [u32],
    reals: &mut [f64],
    id: usize,
    value: &[u32; 1],
    floats: &[f64; 4],
) -> u32
    ensures answer { result ≡ said.edit_number room.now words.old reals.old (said.vertex_good (said.was value) (said.was floats)) said.VERTICES id }
    ensures tables { words.new ≡ said.edit_words room.now words.old reals.old (said.vertex_good (said.was value) (said.was floats)) said.VERTICES id 0 (said.vertex_given (said.was value) (said.was floats)) }
    ensures floats { reals.new ≡ said.edit_reals room.now words.old reals.old (said.vertex_good (said.was value) (said.was floats)) said.VERTICES id (said.vertex_own (said.was value) (said.was floats)) }
{
    c_sets::vertex(room, words, reals, id, value, floats)
}

#[unsafe(no_mangle)]
pub extern "C" fn brunskerl_set_curve(
    room: &[usize; 10],
    words: &mut [u32],
    reals: &mut [f64],
    id: usize,
    value: &[u32; 1],
    floats: &[f64; 6],
) -> u32
    ensures answer { result ≡ said.edit_number room.now words.old reals.old (said.carrier_known (said.was value)) said.CURVES id }
    ensures tables { words.new ≡ said.edit_words room.now words.old reals.old (said.carrier_known (said.was value)) said.CURVES id 0 (said.carrier_given (said.was value) (said.was floats)) }
    ensures floats { reals.new ≡ said.edit_reals room.now words.old reals.old (said.carrier_known (said.was value)) said.CURVES id (said.carrier_own (said.was value) (said.was floats)) }
{
    c_sets::curve(room, words, reals, id, value, floats)
}

#[unsafe(no_mangle)]
pub extern "C" fn brunskerl_set_surface(
    room: &[usize; 10],
    words: &mut [u32],
    reals: &mut [f64],
    id: usize,
    value: &[u32; 1],
    floats: &[f64; 6],
) -> u32
    ensures answer { result ≡ said.edit_number room.now words.old reals.old (said.carrier_known (said.was value)) said.SURFACES id }
    ensures tables { words.new ≡ said.edit_words room.now words.old reals.old (said.carrier_known (said.was value)) said.SURFACES id 0 (said.carrier_given (said.was value) (said.was floats)) }
    ensures floats { reals.new ≡ said.edit_reals room.now words.old reals.old (said.carrier_known (said.was value)) said.SURFACES id (said.carrier_own (said.was value) (said.was floats)) }
{
    c_sets::surface(room, words, reals, id, value, floats)
}

// Marks a fin as having a pcurve.
#[unsafe(no_mangle)]
pub extern "C" fn brunskerl_set_fin_geometry(
    room: &[usize; 10],
    words: &mut [u32],
    reals: &mut [f64],
    id: usize,
) -> u32
    ensures answer { result ≡ said.edit_number room.now words.old reals.old true said.FINS id }
    ensures tables { words.new ≡ said.edit_words room.now words.old reals.old true said.FINS id said.AT_FIN_PCURVE (said.mark true ∷ []) }
    ensures floats { reals.new ≡ said.edit_reals room.now words.old reals.old true said.FINS id [] }
{
    edit_sets::set_fin_geometry(room, words, reals, id)
}

// ---- the entries of the eight lists: put, appended and struck

// Another id at a place of list j of record i.
#[unsafe(no_mangle)]
pub extern "C" fn brunskerl_put_entry(
    room: &[usize; 10],
    words: &mut [u32],
    reals: &[f64],
    office: u32,
    j: usize,
    i: usize,
    place: usize,
    id: u32,
) -> u32
    ensures answer { result ≡ said.office_entry_number room.now words.old reals.now office j i place }
    ensures tables { words.new ≡ said.office_put_words room.now words.old reals.now office j i place id }
{
    put_entry(room, words, reals, office, j, i, place, id)
}

// An entry more at the end of list j of record i.
#[unsafe(no_mangle)]
pub extern "C" fn brunskerl_append_entry(
    room: &[usize; 10],
    words: &mut [u32],
    reals: &[f64],
    office: u32,
    j: usize,
    i: usize,
    id: u32,
) -> u32
    ensures answer { result ≡ said.office_append_number room.now words.old reals.now office j i }
    ensures tables { words.new ≡ said.office_append_words room.now words.old reals.now office j i id }
{
    append_entry(room, words, reals, office, j, i, id)
}

// Without the entry at a place of list j of record i.
#[unsafe(no_mangle)]
pub extern "C" fn brunskerl_strike_entry(
    room: &[usize; 10],
    words: &mut [u32],
    reals: &[f64],
    office: u32,
    j: usize,
    i: usize,
    place: usize,
) -> u32
    ensures answer { result ≡ said.office_entry_number room.now words.old reals.now office j i place }
    ensures tables { words.new ≡ said.office_strike_words room.now words.old reals.now office j i place }
{
    strike_entry(room, words, reals, office, j, i, place)
}
