// What the memory holds, record by record: a record's value in lent slots, the entry of a list, the ends of a fin and the bounds of an edge.
ghost use Rattle.std.specs.Prelude.{◌≡◌, [], ◌∷◌, ltb};
ghost use Rattle.geom_lines_planes.specs.Refuse.{◌unless◌, ◌then◌};
ghost use Rattle.station.specs.Words as said;

// ---- the lookups of model.rs: a record's value in lent slots

#[unsafe(no_mangle)]
pub extern "C" fn brunskerl_body(
    room: &[usize; 10],
    words: &[u32],
    reals: &[f64],
    office: u32,
    id: usize,
    value: &mut [u32; 2],
) -> u32
    ensures answer { result ≡ said.lent said.office_body_number room words reals office id }
    ensures slots { value.new ≡ said.unless_refused result (said.body_value (said.seen_body ((said.held room words reals).bodies.slot (said.body_for (said.held room words reals) office id)))) value.old }
{
    c_lookups::body(room, words, reals, office, id, value)
}

#[unsafe(no_mangle)]
pub extern "C" fn brunskerl_region(
    room: &[usize; 10],
    words: &[u32],
    reals: &[f64],
    id: usize,
    value: &mut [u32; 3],
) -> u32
    ensures answer { result ≡ 9 unless said.lent said.readable room words reals then 2 unless said.has (said.held room words reals).regions id }
    ensures slots { value.new ≡ said.unless_refused result (said.region_value (said.seen_region ((said.held room words reals).regions.slot id))) value.old }
{
    c_lookups::region(room, words, reals, id, value)
}

#[unsafe(no_mangle)]
pub extern "C" fn brunskerl_shell(
    room: &[usize; 10],
    words: &[u32],
    reals: &[f64],
    id: usize,
    value: &mut [u32; 4],
) -> u32
    ensures answer { result ≡ 9 unless said.lent said.readable room words reals then 2 unless said.has (said.held room words reals).shells id }
    ensures slots { value.new ≡ said.unless_refused result (said.shell_value (said.seen_shell ((said.held room words reals).shells.slot id))) value.old }
{
    c_lookups::shell(room, words, reals, id, value)
}

#[unsafe(no_mangle)]
pub extern "C" fn brunskerl_face(
    room: &[usize; 10],
    words: &[u32],
    reals: &[f64],
    id: usize,
    value: &mut [u32; 8],
) -> u32
    ensures answer { result ≡ 9 unless said.lent said.readable room words reals then 2 unless said.has (said.held room words reals).faces id }
    ensures slots { value.new ≡ said.unless_refused result (said.face_value (said.seen_face ((said.held room words reals).faces.slot id))) value.old }
{
    c_lookups::face(room, words, reals, id, value)
}

#[unsafe(no_mangle)]
pub extern "C" fn brunskerl_loop(
    room: &[usize; 10],
    words: &[u32],
    reals: &[f64],
    id: usize,
    value: &mut [u32; 2],
) -> u32
    ensures answer { result ≡ 9 unless said.lent said.readable room words reals then 2 unless said.has (said.held room words reals).loops id }
    ensures slots { value.new ≡ said.unless_refused result (said.loop_value (said.seen_loop ((said.held room words reals).loops.slot id))) value.old }
{
    c_lookups::loop_(room, words, reals, id, value)
}

#[unsafe(no_mangle)]
pub extern "C" fn brunskerl_fin(
    room: &[usize; 10],
    words: &[u32],
    reals: &[f64],
    id: usize,
    value: &mut [u32; 4],
) -> u32
    ensures answer { result ≡ 9 unless said.lent said.readable room words reals then 2 unless said.has (said.held room words reals).fins id }
    ensures slots { value.new ≡ said.unless_refused result (said.fin_value (said.seen_fin ((said.held room words reals).fins.slot id))) value.old }
{
    c_lookups::fin(room, words, reals, id, value)
}

#[unsafe(no_mangle)]
pub extern "C" fn brunskerl_edge(
    room: &[usize; 10],
    words: &[u32],
    reals: &[f64],
    id: usize,
    value: &mut [u32; 8],
    floats: &mut [f64; 1],
) -> u32
    ensures answer { result ≡ 9 unless said.lent said.readable room words reals then 2 unless said.has (said.held room words reals).edges id }
    ensures slots { value.new ≡ said.unless_refused result (said.edge_value (said.seen_edge ((said.held room words reals).edges.slot id))) value.old }
    ensures floats { floats.new ≡ said.unless_refused result (said.edge_reals (said.seen_edge ((said.held room words reals).edges.slot id))) floats.old }
{
    c_lookups::edge(room, words, reals, id, value, floats)
}

#[unsafe(no_mangle)]
pub extern "C" fn brunskerl_vertex(
    room: &[usize; 10],
    words: &[u32],
    reals: &[f64],
    id: usize,
    value: &mut [u32; 1],
    floats: &mut [f64; 4],
) -> u32
    ensures answer { result ≡ 9 unless said.lent said.readable room words reals then 2 unless said.has (said.held room words reals).vertices id }
    ensures slots { value.new ≡ said.unless_refused result (said.vertex_value (said.seen_vertex ((said.held room words reals).vertices.slot id))) value.old }
    ensures floats { floats.new ≡ said.unless_refused result (said.vertex_reals (said.seen_vertex ((said.held room words reals).vertices.slot id))) floats.old }
{
    c_lookups::vertex(room, words, reals, id, value, floats)
}

#[unsafe(no_mangle)]
pub extern "C" fn brunskerl_curve(
    room: &[usize; 10],
    words: &[u32],
    reals: &[f64],
    id: usize,
    value: &mut [u32; 1],
    floats: &mut [f64; 6],
) -> u32
    ensures answer { result ≡ 9 unless said.lent said.readable room words reals then 2 unless said.has (said.held room words reals).curves id }
    ensures slots { value.new ≡ said.unless_refused result (said.carrier_fields ((said.held room words reals).curves.slot id)) value.old }
    ensures floats { floats.new ≡ said.unless_refused result (said.carrier_floats ((said.held room words reals).curves.slot id)) floats.old }
{
    c_lookups::curve(room, words, reals, id, value, floats)
}

#[unsafe(no_mangle)]
pub extern "C" fn brunskerl_surface(
    room: &[usize; 10],
    words: &[u32],
    reals: &[f64],
    id: usize,
    value: &mut [u32; 1],
    floats: &mut [f64; 6],
) -> u32
    ensures answer { result ≡ 9 unless said.lent said.readable room words reals then 2 unless said.has (said.held room words reals).surfaces id }
    ensures slots { value.new ≡ said.unless_refused result (said.carrier_fields ((said.held room words reals).surfaces.slot id)) value.old }
    ensures floats { floats.new ≡ said.unless_refused result (said.carrier_floats ((said.held room words reals).surfaces.slot id)) floats.old }
{
    c_lookups::surface(room, words, reals, id, value, floats)
}

// Whether an entity exists, by its class, which is the number of its table.
#[unsafe(no_mangle)]
pub extern "C" fn brunskerl_contains(
    room: &[usize; 10],
    words: &[u32],
    reals: &[f64],
    office: u32,
    class: u32,
    id: usize,
    value: &mut [u32; 1],
) -> u32
    ensures answer { result ≡ said.lent said.by_office room words reals office (1 unless ltb class 8) }
    ensures slots { value.new ≡ said.unless_refused result (said.mark (said.contained (said.held room words reals) (said.entity_for (said.held room words reals) office (said.entity_of class id))) ∷ []) value.old }
{
    c_queries::contains(room, words, reals, office, class, id, value)
}

// ---- the entries of the eight lists

// The entry at a place of list j of record i.
#[unsafe(no_mangle)]
pub extern "C" fn brunskerl_list_entry(
    room: &[usize; 10],
    words: &[u32],
    reals: &[f64],
    office: u32,
    j: usize,
    i: usize,
    place: usize,
    value: &mut [u32; 1],
) -> u32
    ensures answer { result ≡ said.lent said.office_entry_number room words reals office j i place }
    ensures slots { value.new ≡ said.unless_refused result (said.word (said.list_of (said.was room) (said.was words) j (said.record_for (said.held room words reals) office j i)) place ∷ []) value.old }
{
    c_queries::list_entry(room, words, reals, office, j, i, place, value)
}

// ---- the ends of a fin, and the parameter bounds of an edge

// The start and end vertices of a fin, each as a tag and an id.
#[unsafe(no_mangle)]
pub extern "C" fn brunskerl_fin_vertices(
    room: &[usize; 10],
    words: &[u32],
    reals: &[f64],
    fin: usize,
    value: &mut [u32; 4],
) -> u32
    ensures answer { result ≡ said.lent said.fin_vertices_number room words reals fin }
    ensures slots { value.new ≡ said.unless_refused result (said.tips_value (said.seen_ends (said.ends_of (said.held room words reals) fin))) value.old }
{
    c_queries::fin_vertices(room, words, reals, fin, value)
}

// The parameter bounds of a straight edge on its line.
#[unsafe(no_mangle)]
pub extern "C" fn brunskerl_edge_parameter_bounds(
    room: &[usize; 10],
    words: &[u32],
    reals: &[f64],
    edge: usize,
    value: &mut [f64; 2],
) -> u32
    ensures answer { result ≡ said.lent said.bounds_number room words reals edge }
    ensures slots { value.new ≡ said.unless_refused result (said.range_value (said.held room words reals) edge) value.old }
{
    c_queries::bounds_of(room, words, reals, edge, value)
}
