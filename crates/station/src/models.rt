// Making an empty model, its precision and its version.
ghost use Rattle.std.specs.Prelude.{◌≡◌, [], ◌∷◌};
ghost use Rattle.geom_lines_planes.specs.Refuse.{◌unless◌};
ghost use Rattle.station.specs.Words as said;

// An empty model with its precision and its version.
#[unsafe(no_mangle)]
pub extern "C" fn brunskerl_make(
    room: &[usize; 10],
    words: &mut [u32],
    reals: &mut [f64],
    precision: f64,
    version: u32,
) -> u32
    ensures answer { result ≡ said.make_number room.now words.old reals.old precision version }
    ensures tables { words.new ≡ said.make_words room.now words.old reals.old precision version }
    ensures floats { reals.new ≡ said.make_reals room.now words.old reals.old precision version }
{
    edit_make::make(room, words, reals, precision, version)
}

// The session precision.
#[unsafe(no_mangle)]
pub extern "C" fn brunskerl_precision(
    room: &[usize; 10],
    words: &[u32],
    reals: &[f64],
    value: &mut [f64; 1],
) -> u32
    ensures answer { result ≡ 9 unless said.lent said.readable room words reals }
    ensures slots { value.new ≡ said.unless_refused result ((said.held room words reals).precision ∷ []) value.old }
{
    c_queries::precision(room, words, reals, value)
}

// The version of the drawing practice that the model names.
#[unsafe(no_mangle)]
pub extern "C" fn brunskerl_version(
    room: &[usize; 10],
    words: &[u32],
    reals: &[f64],
    value: &mut [u32; 1],
) -> u32
    ensures answer { result ≡ 9 unless said.lent said.readable room words reals }
    ensures slots { value.new ≡ said.unless_refused result (said.version_tag (said.held room words reals).version ∷ []) value.old }
{
    c_queries::version(room, words, reals, value)
}
