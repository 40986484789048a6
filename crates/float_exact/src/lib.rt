// For callers: whether the sum of two floats is exact (W-205), by floats alone. A difference is the sum with the negative.
#![tactic(auto)]

ghost use Rattle.std.specs.Prelude.{◌≡◌};
ghost use Rattle.float_exact.specs.Exact.{exact_sum};

// Whether a + b is a float, so that nothing is rounded: each of the two comes back when the other is taken off the sum.
pub fn exact_sum(a: f64, b: f64) -> bool
    ensures { result ≡ exact_sum a b }
{
    let s = a + b;
    (s - a == b) & (s - b == a)
}
