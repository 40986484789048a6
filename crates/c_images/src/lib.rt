// Inner: a model's image as a C program asks for it (W-202): the answer's number, and the length in a lent slot, which a refusal leaves as it was.
#![tactic(auto)]

ghost use Rattle.std.specs.Prelude.{◌≡◌, length};
ghost use Rattle.memory_writes.specs.Put.{unless_refused};
ghost use Rattle.image_format.specs.Image.{image_of};
ghost use Rattle.image_writer.specs.Answers.{length_number, write_number, written_bytes};
ghost use Rattle.c_lent.specs.Lent.{lent, held, alone};

use image_writer::Length;

// How many bytes the image takes.
pub fn image_length(room: &[usize; 10], words: &[u32], reals: &[f64], value: &mut [usize; 1]) -> u32
    ensures answer { result ≡ lent length_number room words reals }
    ensures slots { value.new ≡ unless_refused result (alone (length (image_of (held room words reals)))) value.old }
{
    match image_writer::image_length(room, words, reals) {
        Length::Is(n) => {
            *value = [n];
            0
        }
        Length::Refused(n) => n,
    }
}

// The image, in the front of lent bytes.
pub fn write_image(
    room: &[usize; 10],
    words: &[u32],
    reals: &[f64],
    bytes: &mut [u8],
    value: &mut [usize; 1],
) -> u32
    ensures answer { result ≡ lent write_number room words reals bytes.old }
    ensures slots { value.new ≡ unless_refused result (alone (length (image_of (held room words reals)))) value.old }
    ensures image { bytes.new ≡ lent written_bytes room words reals bytes.old }
{
    match image_writer::write_image(room, words, reals, bytes) {
        Length::Is(long) => {
            *value = [long];
            0
        }
        Length::Refused(n) => n,
    }
}
