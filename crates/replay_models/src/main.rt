// Program: replays a fixed list of the Rust's answers about whole models (stdin; compare/README.md says how it is made and how a row is
// written), and writes how many models and answers there were and how many of ours differ. Inner: the reading of rows, which asks that they are whole.
#![tactic(auto)]

mod asks;
mod rows;

ghost use Rattle.std.specs.Prelude.{◌≤◌};

use crate::asks::{corners, ends, parameters, report, split, volume, walk};
use crate::rows::{Row, float, row_of, sum, sum_floats};

// The capacities of every model of the list.
const ROOM: [usize; 10] = [4, 8, 8, 24, 24, 128, 64, 64, 64, 24];

#[derive(Clone, Copy)]
struct Counts {
    models: u64,
    answers: u64,
    differ: u64,
}

// Whether there was a row, and the counts with it.
#[derive(Clone, Copy)]
struct After {
    more: bool,
    counts: Counts,
}

fn put_word(memory: &mut [u32; 33815], at: usize, x: u32) {
    if at < 33815 {
        memory[at] = x;
    }
}

// Six words at a place.
fn put_words(memory: &mut [u32; 33815], w: Row) {
    let at = w.a as usize;
    put_word(memory, at, w.b);
    put_word(memory, at + 1, w.c);
    put_word(memory, at + 2, w.d);
    put_word(memory, at + 3, w.e);
    put_word(memory, at + 4, w.f);
    put_word(memory, at + 5, w.g);
}

fn put_float(memory: &mut [f64; 855], at: usize, high: u32, low: u32) {
    if at < 855 {
        memory[at] = float(high, low);
    }
}

// Three floats at a place. Behind the model's floats stand the six that a question takes, or that its answer has.
fn put_floats(memory: &mut [f64; 855], behind: usize, w: Row)
    requires { behind ≤ 849 }
{
    let at = behind + w.a as usize;
    put_float(memory, at, w.b, w.c);
    put_float(memory, at + 1, w.d, w.e);
    put_float(memory, at + 2, w.f, w.g);
}

// The sums of all words and of all floats.
fn memory_is(words: &[u32], reals: &[f64], w: Row) -> bool {
    (sum(words, 33815) == w.a as u64) & (sum_floats(reals, 849) == w.b as u64)
}

// Whether our answer to a question is the row's.
fn agrees(words: &mut [u32; 33815], reals: &mut [f64; 855], w: Row) -> bool {
    let room = ROOM;
    let x = [
        reals[849], reals[850], reals[851], reals[852], reals[853], reals[854],
    ];
    let op = w.op;
    match op {
        4 => walk(&room, &words[..], &reals[..], w),
        5 => ends(&room, &words[..], &reals[..], w),
        6 => corners(&room, &words[..], &reals[..], w, &x),
        7 => volume(&room, &words[..], &reals[..], w, x[0]),
        8 => report(&room, &words[..], &reals[..], w),
        9 => parameters(&room, &words[..], &reals[..], w, &x),
        10 => split(&room, &mut words[..], &mut reals[..], w, x[0]),
        11 => memory_is(&words[..], &reals[..], w),
        _ => false,
    }
}

// Lays out what the row has of a model.
fn laid_out(words: &mut [u32; 33815], reals: &mut [f64; 855], w: Row) {
    let op = w.op;
    match op {
        0 => {
            *words = [0; 33815];
            *reals = [0.0; 855];
        }
        1 => put_words(words, w),
        2 => put_floats(reals, 0, w),
        _ => put_floats(reals, 849, w),
    }
}

// One row of the list; a last row that is not whole counts as an answer that differs.
fn row(words: &mut [u32; 33815], reals: &mut [f64; 855], counts: Counts) -> After {
    let mut line = [0u8; 66];
    let n = io::read_full(0, &mut line);
    if n == 0 {
        return After {
            more: false,
            counts,
        };
    }
    let w = row_of(&line);
    if w.op < 4 {
        laid_out(words, reals, w);
        return After {
            more: true,
            counts: Counts {
                models: std::num::wrapping_add_u64(counts.models, (w.op == 0) as u64),
                answers: counts.answers,
                differ: counts.differ,
            },
        };
    }
    let ours = agrees(words, reals, w) & (n == 66);
    After {
        more: true,
        counts: Counts {
            models: counts.models,
            answers: std::num::wrapping_add_u64(counts.answers, 1),
            differ: std::num::wrapping_add_u64(counts.differ, !ours as u64),
        },
    }
}

// All rows, at most a million.
fn all() -> Counts {
    let mut words = [0; 33815];
    let mut reals = [0.0; 855];
    let mut counts = Counts {
        models: 0,
        answers: 0,
        differ: 0,
    };
    for _ in 0..1000000 {
        let t = row(&mut words, &mut reals, counts);
        counts = t.counts;
        if !t.more {
            break;
        }
    }
    counts
}

fn main() {
    let counts = all();
    io::print_decimal(1, counts.models);
    io::write_all(1, b" models, ");
    io::print_decimal(1, counts.answers);
    io::write_all(1, b" answers, ");
    io::print_decimal(1, counts.differ);
    io::write_all(1, b" differ\n");
}
