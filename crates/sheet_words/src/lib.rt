// Inner: the stone sheet in five words (W-201): what they tell, whether they can be read, and one stone more, by value.
//
// The family sheet_: the yard's running sheet in whole numbers. sheet_words has the struct and its update by value; the calls that take a body in stand in office_.
#![tactic(auto)]

ghost use Rattle.std.specs.Prelude.{◌≡◌, ◌+◌, ◌*◌, ◌^◌, ◌<◌, ◌≤◌, true, pos, ◌+ℤ◌, ◌-ℤ◌, int_lt, nat_le, nat_lt, unsigned_abs};
ghost use Rattle.std.proofs.Math.IntN.{sub_ℕ};
ghost use Rattle.meaning_sheets.specs.Sheets.{sheet_readable, with_stone};
ghost use Rattle.sheet_words.specs.Words.{as_signed, as_word, sheet_of, words_of_sheet};
ghost use Rattle.sheet_words.specs.Totals.{words_of_total};

use std::num;

// The number of stones, the exact total in two words, and the largest stone: its body and six times its volume. Signed numbers are two's complement; five zeros are a new sheet.
#[derive(Clone, Copy)]
pub struct StoneSheet {
    pub stones: u64,
    pub low: u64,
    pub high: u64,
    pub body: u64,
    pub largest: u64,
}

// A total in two words, since a function returns one value.
#[derive(Clone, Copy)]
pub struct Total {
    pub low: u64,
    pub high: u64,
}

// 2^63: from here on a word is a negative number.
const NEGATIVE: u64 = 9223372036854775808;

// 2^60, a sixteenth of what a word counts.
const SIXTEENTH: u64 = 1152921504606846976;

// Is one number of two words below another?
fn below(high: u64, low: u64, top: u64, rest: u64) -> bool
    ensures { result ≡ nat_lt (high * 2 ^ 64 + low) (top * 2 ^ 64 + rest) }
{
    if high == top {
        return low < rest;
    }
    high < top
}

// Is a total at most 3·2^60 in size for each stone? Of a negative one the complement is its size less one, so it must be below.
fn within(high: u64, low: u64, stones: u64) -> bool
    requires { stones ≤ 65536 }
    ensures { result ≡ nat_le (unsigned_abs (as_signed (2 ^ 127) (high * 2 ^ 64 + low))) (3 * 2 ^ 60 * stones) }
{
    let top = stones * 3 / 16;
    let rest = stones * 3 % 16 * SIXTEENTH;
    if high < NEGATIVE {
        return !below(top, rest, high, low);
    }
    below(u64::MAX - high, u64::MAX - low, top, rest)
}

// Can the sheet be read: 65,536 stones at most, and a total of 3·2^60 in size for each?
pub fn readable(s: StoneSheet) -> bool
    ensures { result ≡ sheet_readable (sheet_of s) }
{
    if 65536 < s.stones {
        return false;
    }
    within(s.high, s.low, s.stones)
}

// The total and a number more: what runs over the low word is counted by the high one.
fn raised(high: u64, low: u64, by: u64) -> Total
    ensures { result ≡ words_of_total (as_signed (2 ^ 127) (high * 2 ^ 64 + low) +ℤ pos by) }
{
    if u64::MAX - low < by {
        return Total {
            low: num::wrapping_add_u64(low, by),
            high: num::wrapping_add_u64(high, 1),
        };
    }
    Total {
        low: low + by,
        high,
    }
}

// The total less a number: what the low word lacks the high one lends.
fn lowered(high: u64, low: u64, by: u64) -> Total
    ensures { result ≡ words_of_total (as_signed (2 ^ 127) (high * 2 ^ 64 + low) -ℤ pos by) }
{
    if low < by {
        return Total {
            low: num::wrapping_sub_u64(low, by),
            high: num::wrapping_sub_u64(high, 1),
        };
    }
    Total {
        low: low - by,
        high,
    }
}

// The total and plus - minus.
pub fn moved(high: u64, low: u64, plus: u64, minus: u64) -> Total
    ensures { result ≡ words_of_total (as_signed (2 ^ 127) (high * 2 ^ 64 + low) +ℤ sub_ℕ plus minus) }
{
    if plus < minus {
        return lowered(high, low, minus - plus);
    }
    raised(high, low, plus - minus)
}

// plus - minus in two's complement.
fn word_of(plus: u64, minus: u64) -> u64
    ensures { result ≡ as_word (2 ^ 63) (sub_ℕ plus minus) }
{
    num::wrapping_sub_u64(plus, minus)
}

// Is the number that is held below plus - minus? Both sides are moved up until none is negative, so that unsigned words compare.
fn is_larger(held: u64, plus: u64, minus: u64) -> bool
    requires { (plus ≤ 3 * 2 ^ 60) × (minus ≤ 3 * 2 ^ 60) }
    ensures { result ≡ int_lt (as_signed (2 ^ 63) held) (sub_ℕ plus minus) }
{
    if held < NEGATIVE {
        return held + minus < plus;
    }
    minus <= plus + (u64::MAX - held)
}

// One stone more, by value: the number is plus - minus.
pub fn with_stone(s: StoneSheet, body: u64, plus: u64, minus: u64) -> StoneSheet
    requires s_value { sheet_readable (sheet_of s) ≡ true }
    requires stones_bound { s.stones < 65536 }
    requires plus_bound { (plus ≤ 3 * 2 ^ 60) × (minus ≤ 3 * 2 ^ 60) }
    ensures { result ≡ words_of_sheet (with_stone (sheet_of s) (record { body = body; number = sub_ℕ plus minus })) }
{
    let total = moved(s.high, s.low, plus, minus);
    if (s.stones == 0) | is_larger(s.largest, plus, minus) {
        return StoneSheet {
            stones: s.stones + 1,
            low: total.low,
            high: total.high,
            body,
            largest: word_of(plus, minus),
        };
    }
    StoneSheet {
        stones: s.stones + 1,
        low: total.low,
        high: total.high,
        body: s.body,
        largest: s.largest,
    }
}
