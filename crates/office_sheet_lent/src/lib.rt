// For callers: `take`, a body taken in on a stone sheet that the caller lends (W-201), a thin function over `office_sheets`, which has the sheet by value.
#![tactic(auto)]

ghost use Rattle.std.specs.Prelude.{◌≡◌, length, replicate};
ghost use Rattle.office_sheets.specs.Answers.{take_number, taken_sheet};

use office_sheets::taken;
use sheet_words::StoneSheet;

// Takes a body in, and says what was refused, 0 where nothing was. `faces` are seen marks.
pub fn take(
    room: &[usize; 10],
    words: &[u32],
    reals: &[f64],
    office: u32,
    body: usize,
    faces: &mut [u8],
    sheet: &mut StoneSheet,
) -> u32
    ensures answer { result ≡ take_number room.now words.now reals.now office body faces.old sheet.old }
    ensures sheet { sheet.new ≡ taken_sheet room.now words.now reals.now office body faces.old sheet.old }
    ensures faces { faces.new ≡ replicate (length faces.old) 0 }
{
    let t = taken(room, words, reals, office, body, faces, *sheet);
    *sheet = t.sheet;
    t.refused
}
