// Program: replays the fixed list of the Rust's answers (stdin; compare/README.md says how it is made and how a row is written),
// and writes how many rows there were and how many of our answers differ from them. Inner: the reading of a row, which asks that it is whole.
#![tactic(auto)]

ghost use Rattle.std.specs.Prelude.{◌≤◌};

use replay_digits::{bits_of, float_of, hex};

#[derive(Clone, Copy)]
struct Counts {
    rows: u64,
    differ: u64,
}

#[derive(Clone, Copy)]
struct After {
    more: bool,
    counts: Counts,
}

// acc with the four digits at `at` more.
fn four(line: &[u8; 323], at: usize, acc: u64) -> u64
    requires { at ≤ 318 }
{
    hex(
        hex(hex(hex(acc, line[at]), line[at + 1]), line[at + 2]),
        line[at + 3],
    )
}

// The number of sixteen digits at `at`.
fn word(line: &[u8; 323], at: usize) -> u64
    requires { at ≤ 306 }
{
    four(
        line,
        at + 12,
        four(line, at + 8, four(line, at + 4, four(line, at, 0))),
    )
}

fn operand(line: &[u8; 323], at: usize) -> f64
    requires { at ≤ 306 }
{
    float_of(word(line, at))
}

// Whether v is the float whose bits stand at `at`.
fn same(line: &[u8; 323], at: usize, v: f64) -> bool
    requires { at ≤ 306 }
{
    word(line, at) == bits_of(v)
}

// Whether our answer to a row's question is the row's.
fn agrees(line: &[u8; 323]) -> bool {
    let head = word(line, 0);
    let x = [
        operand(line, 17),
        operand(line, 34),
        operand(line, 51),
        operand(line, 68),
        operand(line, 85),
        operand(line, 102),
        operand(line, 119),
        operand(line, 136),
        operand(line, 153),
        operand(line, 170),
        operand(line, 187),
        operand(line, 204),
    ];
    let mut out = [0.0; 6];
    let number = replay_probe::brunskerl_probe((head % 65536) as u32, &x, &mut out);
    (head / 65536 == number as u64)
        & same(line, 221, out[0])
        & same(line, 238, out[1])
        & same(line, 255, out[2])
        & same(line, 272, out[3])
        & same(line, 289, out[4])
        & same(line, 306, out[5])
}

// One row of the list; a last row that is not whole counts as one that differs.
fn row(counts: Counts) -> After {
    let mut line = [0u8; 323];
    let n = io::read_full(0, &mut line);
    if n == 0 {
        return After {
            more: false,
            counts,
        };
    }
    let rows = std::num::wrapping_add_u64(counts.rows, 1);
    if n == 323 {
        if agrees(&line) {
            return After {
                more: true,
                counts: Counts {
                    rows,
                    differ: counts.differ,
                },
            };
        }
    }
    After {
        more: true,
        counts: Counts {
            rows,
            differ: std::num::wrapping_add_u64(counts.differ, 1),
        },
    }
}

// All rows, at most a million.
fn all() -> Counts {
    let mut counts = Counts { rows: 0, differ: 0 };
    for _ in 0..1000000 {
        let t = row(counts);
        counts = t.counts;
        if !t.more {
            break;
        }
    }
    counts
}

fn main() {
    let counts = all();
    io::print_decimal(1, counts.rows);
    io::write_all(1, b" rows, ");
    io::print_decimal(1, counts.differ);
    io::write_all(1, b" differ\n");
}
