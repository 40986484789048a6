// For callers: whether a float is on the yard's grid of sixteenths of a millimetre (W-201). Inner: `sixteenths`, how many of them it is.
#![tactic(auto)]

ghost use Rattle.std.specs.Prelude.{◌≡◌, true};
ghost use Rattle.float_grid.specs.Grid.{on_grid, sixteenths};

use std::num::truncating_f64_to_i64;

// Is it a whole number of sixteenths, of 2,048 mm at most? Sixteen times such a size is a float, so the product is not rounded.
pub fn on_grid(x: f64) -> bool
    ensures { result ≡ on_grid x }
{
    if !(x >= -2048.0) {
        return false;
    }
    if !(x <= 2048.0) {
        return false;
    }
    let y = x * 16.0;
    let n = truncating_f64_to_i64(y);
    (n as f64) == y
}

// How many sixteenths it is.
pub fn sixteenths(x: f64) -> i64
    requires { on_grid x ≡ true }
    ensures { result ≡ sixteenths x }
{
    truncating_f64_to_i64(x * 16.0)
}
