// The version's record at the front of an image (W-211), and the records behind it. `specs/Image.antt` of `image_format` says which bytes they are.
ghost use Rattle.std.specs.Prelude.{◌≡◌, ◌≤◌, length};
ghost use Rattle.memory_layout.specs.Laid.{version_tag};
ghost use Rattle.image_format.specs.Image.{version_image, version_in, records_in};
ghost use Rattle.image_accepted.specs.Version.{version_good};

use image_bytes::{mark_in, word_in};

// The mark of the version's record, VN, and how many bytes the record takes.
const VERSION_MARK: u32 = 0x4e56;

const VERSION_LENGTH: usize = 6;

// The version: 2 where the bytes begin with that mark, else 1.
pub fn version_in(bytes: &[u8]) -> u32
    ensures { result ≡ version_tag (version_in bytes.now) }
{
    if bytes.len() < 2 {
        return 1;
    }
    if mark_in(bytes, 0) == VERSION_MARK {
        return 2;
    }
    1
}

// Does an image of version 2 name it?
pub fn version_good(bytes: &[u8]) -> bool
    ensures { result ≡ version_good bytes.now }
{
    if version_in(bytes) == 1 {
        return true;
    }
    if bytes.len() < VERSION_LENGTH {
        return false;
    }
    word_in(bytes, 2) == 2
}

// Where the precision's record begins.
fn records_at(bytes: &[u8]) -> usize
    ensures { result ≡ length (version_image (version_in bytes.now)) }
{
    if version_in(bytes) == 1 {
        return 0;
    }
    VERSION_LENGTH
}

// The bytes from there on.
pub fn records_in(bytes: &[u8]) -> &[u8]
    requires { length (version_image (version_in bytes.now)) ≤ length bytes.now }
    ensures { result.now ≡ records_in bytes.now }
{
    let at = records_at(bytes);
    &bytes[at..]
}
