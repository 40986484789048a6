// Inner: a body taken in on a stone sheet, as a C program asks for it (W-201): the answer's number, and the sheet in five lent words, which a refusal leaves as they were.
#![tactic(auto)]

ghost use Rattle.std.specs.Prelude.{◌≡◌, length, replicate};
ghost use Rattle.office_sheets.specs.Answers.{take_number, taken_sheet};
ghost use Rattle.c_lent.specs.Lent.{lent};
ghost use Rattle.c_sheets.specs.Slots.{sheet_in, sheet_out};

use office_sheets::taken;
use sheet_words::StoneSheet;

// Takes a body in; `faces` are seen marks. Of a refusal `taken` hands back the sheet that it was given, so that its words are put back in every case.
pub fn take(
    room: &[usize; 10],
    words: &[u32],
    reals: &[f64],
    office: u32,
    body: usize,
    faces: &mut [u8],
    sheet: &mut [u64; 5],
) -> u32
    ensures answer { result ≡ lent take_number room words reals office body faces.old (sheet_in sheet.old) }
    ensures slots { sheet.new ≡ sheet_out (lent taken_sheet room words reals office body faces.old (sheet_in sheet.old)) }
    ensures faces { faces.new ≡ replicate (length faces.old) 0 }
{
    let before = StoneSheet {
        stones: sheet[0],
        low: sheet[1],
        high: sheet[2],
        body: sheet[3],
        largest: sheet[4],
    };
    let t = taken(room, words, reals, office, body, faces, before);
    let s = t.sheet;
    *sheet = [s.stones, s.low, s.high, s.body, s.largest];
    t.refused
}
