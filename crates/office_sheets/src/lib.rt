// For callers: a body taken in on the yard's stone sheet (W-201), by value, by the office that asks (W-206). specs/Answers.antt says what it answers. It is what callers within the project use;
// `office_sheet_lent` updates a sheet where it stands.
#![tactic(auto)]

ghost use Rattle.std.specs.Prelude.{◌≡◌, true, ◌*◌, ◌^◌, ◌≤◌, length, replicate};
ghost use Rattle.meaning_sheets.specs.Sheets.{sheet_readable};
ghost use Rattle.sheet_words.specs.Words.{sheet_of};
ghost use Rattle.office_sheets.specs.Answers.{take_number, taken_sheet};
ghost use Rattle.office_sheets.specs.Told.{told_take};

use inquire_stone::{Stone, body_stone};
use memory_offices::body_for;
use memory_readable::unknown_tag;
use sheet_words::{StoneSheet, readable, with_stone};
use split_segment::refusals::{then, unless};
use walk_marks::clear;

// The refusal's number, or 0, and the sheet behind the call, which a refusal leaves as found.
#[derive(Clone, Copy)]
pub struct TakenIn {
    pub refused: u32,
    pub sheet: StoneSheet,
}

// A stone on a sheet that can be read; no room 8.
fn taken_in(sheet: StoneSheet, body: usize, stone: Stone) -> TakenIn
    requires sheet_value { sheet_readable (sheet_of sheet) ≡ true }
    requires plus_bound { (stone.plus ≤ 3 * 2 ^ 60) × (stone.minus ≤ 3 * 2 ^ 60) }
    ensures { result ≡ told_take sheet body stone }
{
    let n = then(stone.refused, unless(8, sheet.stones < 65536));
    if n != 0 {
        return TakenIn { refused: n, sheet };
    }
    TakenIn {
        refused: 0,
        sheet: with_stone(sheet, body as u64, stone.plus, stone.minus),
    }
}

// Takes a body in. `faces` are seen marks.
pub fn taken(
    room: &[usize; 10],
    words: &[u32],
    reals: &[f64],
    office: u32,
    body: usize,
    faces: &mut [u8],
    sheet: StoneSheet,
) -> TakenIn
    ensures refused { result.refused ≡ take_number room.now words.now reals.now office body faces.old sheet }
    ensures sheet { result.sheet ≡ taken_sheet room.now words.now reals.now office body faces.old sheet }
    ensures faces { faces.new ≡ replicate (length faces.old) 0 }
{
    if !readable(sheet) {
        clear(faces);
        return TakenIn { refused: 9, sheet };
    }
    if 1 < office {
        clear(faces);
        return TakenIn {
            refused: unknown_tag(room, words, reals),
            sheet,
        };
    }
    let seen = body_for(words, office, body);
    let stone = body_stone(room, words, reals, seen, faces);
    taken_in(sheet, seen, stone)
}
