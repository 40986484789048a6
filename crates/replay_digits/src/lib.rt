// Inner: the numbers of the fixed lists that programs replay, hexadecimal digits, and floats by their bits.
//
// The family replay_: fixed lists of the Rust's answers, asked again in the gate. replay_digits reads their numbers; replay_numbers asks number by
// number, through replay_probe; replay_models asks about whole models.
#![tactic(auto)]

ghost use Rattle.std.specs.Prelude.{◌<◌};

// A hexadecimal digit's value.
fn digit(c: u8) -> u64
    ensures { result < 16 }
{
    match c {
        48..=57 => (c - 48) as u64,
        97..=102 => (c - 87) as u64,
        _ => 0,
    }
}

// acc with one digit more.
pub fn hex(acc: u64, c: u8) -> u64 {
    acc % 0x1000000000000000 * 16 + digit(c)
}

// The float of a bit pattern.
pub fn float_of(b: u64) -> f64 {
    if b % 0x8000000000000000 <= 0x7ff0000000000000 {
        f64::from_bits(b)
    } else {
        0.0 / 0.0
    }
}

// The bits of a float, one pattern for every NaN.
pub fn bits_of(x: f64) -> u64 {
    if x != x {
        return 0x7ff8000000000000;
    }
    f64::to_bits(x)
}

// Whether two floats have the same bits, every NaN counted as the same.
pub fn same(x: f64, y: f64) -> bool {
    bits_of(x) == bits_of(y)
}
