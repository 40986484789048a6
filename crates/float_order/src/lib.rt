// For callers: one float up and one float down, by the bit pattern (interval.rs moves its bounds by them). Inner: `down_bits`.
//
// The family float_: f64 as IEEE 754 has it. float_order has the floats in their order, float_vectors points and vectors of them, float_values what number
// each is, float_exact which sums are exact, and float_grid which floats are whole sixteenths.
#![tactic(auto)]

pub mod extremes;

ghost use Rattle.std.specs.Prelude.{◌≡◌, ◌≤◌};
ghost use Rattle.float_order.specs.Next.{up_bits, down_bits, next_up, next_down, NEGINF};

// One step up among the bit patterns of the values that are no NaN.
fn up_bits(b: u64) -> u64
    ensures { result ≡ up_bits b }
{
    if b == 0x7ff0000000000000 {
        b
    } else if b == 0 {
        1
    } else if b < 0x8000000000000000 {
        b + 1
    } else if b == 0x8000000000000000 {
        1
    } else {
        b - 1
    }
}

// One step down. The largest pattern of a value that is no NaN is that of -infinity.
fn down_bits(b: u64) -> u64
    requires { b ≤ NEGINF }
    ensures { result ≡ down_bits b }
{
    if b == 0xfff0000000000000 {
        b
    } else if b == 0 {
        0x8000000000000001
    } else if b < 0x8000000000000000 {
        b - 1
    } else {
        b + 1
    }
}

// Rust's `f64::next_up`.
pub fn next_up(x: f64) -> f64
    ensures { result ≡ next_up x }
{
    if x != x {
        return x;
    }
    f64::from_bits(up_bits(f64::to_bits(x)))
}

// Rust's `f64::next_down`.
pub fn next_down(x: f64) -> f64
    ensures { result ≡ next_down x }
{
    if x != x {
        return x;
    }
    f64::from_bits(down_bits(f64::to_bits(x)))
}
