// Inner: how many bytes a body's binary STL takes, and the writing of it (W-209), whatever the body's office; callers ask `office_stl`. specs/Answers.antt says what they answer and leave.
#![tactic(auto)]

ghost use Rattle.std.specs.Prelude.{◌≡◌, true, ◌++◌, ◌+◌, ◌*◌, ◌≤◌, length, replicate};
ghost use Rattle.meaning.specs.Inquire.{solid_sides};
ghost use Rattle.memory_layout.specs.Decode.{decode};
ghost use Rattle.memory_writes.specs.Put.{over};
ghost use Rattle.image_format.specs.Bytes.{little};
ghost use Rattle.inquire_volume.specs.Answers.{volume_number};
ghost use Rattle.stl_format.specs.Stl.{triangles_of, body_stl};
ghost use Rattle.stl_fan.specs.Pens.{Drawn};
ghost use Rattle.stl_writer.specs.Answers.{length_answer, write_answer, written_bytes};
ghost use Rattle.stl_writer.specs.Sketches.{Drawable, sketch_of};

use image_bytes::put_words;
use inquire_volume::body_volume;
use memory_layout::names::BODY_REGIONS;
use memory_lists::list;
use split_segment::refusals::{then, unless};
use station_answers::Volume;
use stl_fan::Pen;
use stl_regions::draw_regions;

// How many bytes, or the refusal's number.
#[derive(Clone, Copy)]
pub enum StlLength {
    Is(usize),
    Refused(u32),
}

// The refusal's number, or 0 and the number of triangles.
#[derive(Clone, Copy)]
struct Sketch {
    refused: u32,
    count: usize,
}

// The header and the count.
const HEAD: usize = 84;

const TRIANGLE: usize = 50;

// The number of the volume's own refusal, or 0. `faces` are seen marks.
fn volume_refusal(
    room: &[usize; 10],
    words: &[u32],
    reals: &[f64],
    body: usize,
    faces: &mut [u8],
) -> u32
    ensures answer { result ≡ volume_number room.now words.now reals.now body faces.old }
    ensures faces { faces.new ≡ replicate (length faces.old) 0 }
{
    match body_volume(room, words, reals, body, faces) {
        Volume::Is(_) => 0,
        Volume::Refused(n) => n,
    }
}

// The body's triangles, from behind the count on, where they fit.
fn draw(room: &[usize; 10], words: &[u32], reals: &[f64], body: usize, bytes: &mut [u8]) -> Pen
    requires { Drawable room.now words.now reals.now body }
    ensures drawn { Drawn (decode room.now words.now reals.now) (solid_sides (decode room.now words.now reals.now) body) (record { narrow = true; count = 0 }) result bytes.old bytes.new }
    ensures few { result.count ≤ 0x8000000 }
{
    draw_regions(
        room,
        words,
        reals,
        list(room, words, BODY_REGIONS, body),
        bytes,
    )
}

// What is told before a byte is written: the drawing is made with no byte lent.
fn sketched(
    room: &[usize; 10],
    words: &[u32],
    reals: &[f64],
    body: usize,
    faces: &mut [u8],
) -> Sketch
    ensures answer { result ≡ sketch_of room.now words.now reals.now body faces.old }
    ensures few { result.count ≤ 0x8000000 }
    ensures faces { faces.new ≡ replicate (length faces.old) 0 }
{
    let n = volume_refusal(room, words, reals, body, faces);
    if n != 0 {
        return Sketch {
            refused: n,
            count: 0,
        };
    }
    let mut none: [u8; 0] = [];
    let pen = draw(room, words, reals, body, &mut none);
    if !pen.narrow {
        return Sketch {
            refused: 5,
            count: 0,
        };
    }
    Sketch {
        refused: 0,
        count: pen.count,
    }
}

// The header, and the number of triangles.
fn write_head(bytes: &mut [u8], count: usize)
    requires { (84 ≤ length bytes.old) × (count ≤ 0x8000000) }
    ensures { bytes.new ≡ over 0 (replicate 80 0 ++ little 4 count) bytes.old }
{
    let header = [0u32; 20];
    let number = [count as u32];
    put_words(bytes, 0, &header);
    put_words(bytes, 80, &number);
}

// All of it, into bytes that it fits.
fn write_whole(
    room: &[usize; 10],
    words: &[u32],
    reals: &[f64],
    body: usize,
    bytes: &mut [u8],
    count: usize,
)
    requires drawable { Drawable room.now words.now reals.now body }
    requires count_value { (count ≡ length (triangles_of (decode room.now words.now reals.now) (solid_sides (decode room.now words.now reals.now) body))) × (count ≤ 0x8000000) }
    requires count_in_bounds { 84 + 50 * count ≤ length bytes.old }
    ensures { bytes.new ≡ over 0 (body_stl (decode room.now words.now reals.now) body) bytes.old }
{
    write_head(bytes, count);
    draw(room, words, reals, body, bytes);
}

// How many bytes the body's binary STL takes. `faces` are seen marks.
pub fn body_stl_length(
    room: &[usize; 10],
    words: &[u32],
    reals: &[f64],
    body: usize,
    faces: &mut [u8],
) -> StlLength
    ensures answer { result ≡ length_answer room.now words.now reals.now body faces.old }
    ensures faces { faces.new ≡ replicate (length faces.old) 0 }
{
    let s = sketched(room, words, reals, body, faces);
    if s.refused != 0 {
        return StlLength::Refused(s.refused);
    }
    StlLength::Is(HEAD + TRIANGLE * s.count)
}

// The body's binary STL into the first of the lent bytes, and how many they are. A refusal writes none of them.
pub fn body_stl(
    room: &[usize; 10],
    words: &[u32],
    reals: &[f64],
    body: usize,
    faces: &mut [u8],
    bytes: &mut [u8],
) -> StlLength
    ensures answer { result ≡ write_answer room.now words.now reals.now body faces.old bytes.old }
    ensures bytes { bytes.new ≡ written_bytes room.now words.now reals.now body faces.old bytes.old }
    ensures faces { faces.new ≡ replicate (length faces.old) 0 }
{
    let s = sketched(room, words, reals, body, faces);
    let long = HEAD + TRIANGLE * s.count;
    let n = then(s.refused, unless(8, long <= bytes.len()));
    if n != 0 {
        return StlLength::Refused(n);
    }
    write_whole(room, words, reals, body, bytes, s.count);
    StlLength::Is(long)
}
