// What goes to bytes and comes from them: a model's image, and a body as binary STL.
ghost use Rattle.std.specs.Prelude.{◌≡◌, [], ◌∷◌, length, replicate};
ghost use Rattle.station.specs.Words as said;

// ---- a model's image: its length, written, and read back

// How many bytes the image of the model takes.
#[unsafe(no_mangle)]
pub extern "C" fn brunskerl_image_length(
    room: &[usize; 10],
    words: &[u32],
    reals: &[f64],
    value: &mut [usize; 1],
) -> u32
    ensures answer { result ≡ said.lent said.length_number room words reals }
    ensures slots { value.new ≡ said.unless_refused result (said.alone (length (said.image_of (said.held room words reals)))) value.old }
{
    c_images::image_length(room, words, reals, value)
}

// The image, in the front of lent bytes, and how many it takes.
#[unsafe(no_mangle)]
pub extern "C" fn brunskerl_write_image(
    room: &[usize; 10],
    words: &[u32],
    reals: &[f64],
    bytes: &mut [u8],
    value: &mut [usize; 1],
) -> u32
    ensures answer { result ≡ said.lent said.write_number room words reals bytes.old }
    ensures slots { value.new ≡ said.unless_refused result (said.alone (length (said.image_of (said.held room words reals)))) value.old }
    ensures image { bytes.new ≡ said.lent said.written_bytes room words reals bytes.old }
{
    c_images::write_image(room, words, reals, bytes, value)
}

// The model of an image, in place of the one that the memory holds.
#[unsafe(no_mangle)]
pub extern "C" fn brunskerl_read_image(
    room: &[usize; 10],
    words: &mut [u32],
    reals: &mut [f64],
    bytes: &[u8],
) -> u32
    ensures answer { result ≡ said.read_number room.now words.old reals.old (said.was bytes) }
    ensures tables { words.new ≡ said.read_words room.now words.old reals.old (said.was bytes) }
    ensures floats { reals.new ≡ said.read_reals room.now words.old reals.old (said.was bytes) }
{
    image_reader::read_image(room, words, reals, bytes)
}

// ---- a body as binary STL, for the viewer: its length, and written; and a new body read from it

// How many bytes the binary STL of a body takes; `faces` are seen marks.
#[unsafe(no_mangle)]
pub extern "C" fn brunskerl_stl_length(
    room: &[usize; 10],
    words: &[u32],
    reals: &[f64],
    office: u32,
    body: usize,
    faces: &mut [u8],
    value: &mut [usize; 1],
) -> u32
    ensures answer { result ≡ said.lent said.office_length_number room words reals office body faces.old }
    ensures slots { value.new ≡ said.unless_refused result (said.alone (length (said.lent said.stl_asked room words reals office body))) value.old }
    ensures faces { faces.new ≡ replicate (length faces.old) 0 }
{
    c_stl::stl_length(room, words, reals, office, body, faces, value)
}

// The binary STL of a body, in the front of lent bytes, and how many it takes; `faces` are seen marks.
#[unsafe(no_mangle)]
pub extern "C" fn brunskerl_write_stl(
    room: &[usize; 10],
    words: &[u32],
    reals: &[f64],
    office: u32,
    body: usize,
    faces: &mut [u8],
    bytes: &mut [u8],
    value: &mut [usize; 1],
) -> u32
    ensures answer { result ≡ said.lent said.office_write_number room words reals office body faces.old bytes.old }
    ensures slots { value.new ≡ said.unless_refused result (said.alone (length (said.lent said.stl_asked room words reals office body))) value.old }
    ensures bytes { bytes.new ≡ said.lent said.office_written room words reals office body faces.old bytes.old }
    ensures faces { faces.new ≡ replicate (length faces.old) 0 }
{
    c_stl::write_stl(room, words, reals, office, body, faces, bytes, value)
}

// A new body of the office's, from the bytes of binary STL: its id in a lent slot.
#[unsafe(no_mangle)]
pub extern "C" fn brunskerl_read_stl(
    room: &[usize; 10],
    words: &mut [u32],
    reals: &mut [f64],
    office: u32,
    bytes: &[u8],
    id: &mut [u32; 1],
) -> u32
    ensures answer { result ≡ said.read_stl_number room.now words.old reals.old office (said.was bytes) }
    ensures slots { id.new ≡ said.unless_refused result (said.word words.old said.BODIES ∷ []) id.old }
    ensures tables { words.new ≡ said.read_stl_words room.now words.old reals.old office (said.was bytes) }
    ensures floats { reals.new ≡ said.read_stl_reals room.now words.old reals.old office (said.was bytes) }
{
    c_stl::read_stl(room, words, reals, office, bytes, id)
}
