// A row of the list: two digits of what is asked, then seven words of eight digits, all hexadecimal.
ghost use Rattle.std.specs.Prelude.{◌<◌, ◌≤◌};

use replay_digits::{bits_of, hex};

// What is asked, and seven words.
#[derive(Clone, Copy)]
pub struct Row {
    pub op: u32,
    pub a: u32,
    pub b: u32,
    pub c: u32,
    pub d: u32,
    pub e: u32,
    pub f: u32,
    pub g: u32,
}

// acc with the four digits at `at` more.
fn four(line: &[u8; 66], at: usize, acc: u64) -> u64
    requires { at ≤ 61 }
{
    hex(
        hex(hex(hex(acc, line[at]), line[at + 1]), line[at + 2]),
        line[at + 3],
    )
}

fn word(line: &[u8; 66], at: usize) -> u32
    requires { at ≤ 57 }
{
    (four(line, at + 4, four(line, at, 0)) % 0x100000000) as u32
}

pub fn row_of(line: &[u8; 66]) -> Row {
    let op = hex(hex(0, line[0]), line[1]);
    Row {
        op: (op % 256) as u32,
        a: word(line, 3),
        b: word(line, 12),
        c: word(line, 21),
        d: word(line, 30),
        e: word(line, 39),
        f: word(line, 48),
        g: word(line, 57),
    }
}

// The float of two words.
pub fn float(high: u32, low: u32) -> f64 {
    replay_digits::float_of(high as u64 * 0x100000000 + low as u64)
}

// A sum with one number more: 31 times what was there and that number, by a prime.
fn add(h: u64, x: u32) -> u64
    requires { h < 4294967291 }
    ensures { result < 4294967291 }
{
    (h * 31 + x as u64) % 4294967291
}

// The same with a float's two words more.
fn add_float(h: u64, x: f64) -> u64
    requires { h < 4294967291 }
    ensures { result < 4294967291 }
{
    let b = bits_of(x);
    add(add(h, (b / 0x100000000) as u32), (b % 0x100000000) as u32)
}

pub fn least(a: usize, b: usize) -> usize
    ensures { result ≤ b }
{
    if a < b {
        return a;
    }
    b
}

// The sum of the first n numbers.
pub fn sum(list: &[u32], n: usize) -> u64 {
    let mut h = 0u64;
    let end = least(n, list.len());
    for number in &list[..end] {
        h = add(h, *number);
    }
    h
}

// The sum of the first n floats.
pub fn sum_floats(list: &[f64], n: usize) -> u64 {
    let mut h = 0u64;
    let end = least(n, list.len());
    for number in &list[..end] {
        h = add_float(h, *number);
    }
    h
}
