// The lesser and the greater of two floats, and the low bound of a square, which intervals are made of (interval.rs).
ghost use Rattle.std.specs.Prelude.{◌≡◌};
ghost use Rattle.float_order.specs.Extremes.{least_f, greatest_f, square_low};

use crate::next_down;

// The lesser of two, and a NaN where one of them is.
pub fn least(a: f64, b: f64) -> f64
    ensures { result ≡ least_f a b }
{
    if a <= b {
        return a;
    }
    if b <= a {
        return b;
    }
    0.0 / 0.0
}

// The greater of two, and a NaN where one of them is.
pub fn greatest(a: f64, b: f64) -> f64
    ensures { result ≡ greatest_f a b }
{
    if b <= a {
        return a;
    }
    if a <= b {
        return b;
    }
    0.0 / 0.0
}

// The low bound of a square: 0 where it spans zero, else from q, the lesser of its ends' squares.
pub fn square_low(spans: bool, q: f64) -> f64
    ensures { result ≡ square_low spans q }
{
    if spans {
        return 0.0;
    }
    greatest(next_down(q), 0.0)
}
