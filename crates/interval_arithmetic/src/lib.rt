// For callers: interval arithmetic with outward rounding (interval.rs). Each bound is worked out in floats, rounded to nearest,
// and then moved one float outward, unless it is a sum that is exact (W-205), so that it encloses the exact result
// (`proofs/Enclose.antt` of `interval_enclosure`).
//
// The family interval_: numbers known between two bounds. interval_arithmetic has the operations, interval_vectors vectors of intervals,
// interval_enclosure the proof that bounds hold the exact number,
// interval_narrowing the proof that narrower operands give narrower intervals.
#![tactic(auto)]

ghost use Rattle.std.specs.Prelude.{◌≡◌};
ghost use Rattle.interval_arithmetic.specs.Ops.{checked_i, outward_i, point_i, low_sum, high_sum, add_i, sub_i, mul_i, neg_i, contains_i, sqr_i, sign_of, sign_i};

use float_exact::exact_sum;
use float_order::extremes::{greatest, least, square_low};
use float_order::{next_down, next_up};

// A closed interval of numbers, which holds the exact value that it stands for. A bound that is an
// infinity bounds nothing.
#[derive(Clone, Copy)]
pub struct Interval {
    pub lo: f64,
    pub hi: f64,
}

#[derive(Clone, Copy)]
pub enum Sign {
    Negative,
    Zero,
    Positive,
    Unresolved,
}

// The whole line where a bound is a NaN.
fn checked(lo: f64, hi: f64) -> Interval
    ensures { result ≡ checked_i lo hi }
{
    if lo != lo {
        return Interval {
            lo: -1.0 / 0.0,
            hi: 1.0 / 0.0,
        };
    }
    if hi != hi {
        return Interval {
            lo: -1.0 / 0.0,
            hi: 1.0 / 0.0,
        };
    }
    Interval { lo: lo, hi: hi }
}

// Bounds that were rounded to nearest, each moved one float outward.
fn outward(lo: f64, hi: f64) -> Interval
    ensures { result ≡ outward_i lo hi }
{
    checked(next_down(lo), next_up(hi))
}

// A low bound and a high one that are a sum: moved unless it is exact.
fn low_sum(a: f64, b: f64) -> f64
    ensures { result ≡ low_sum a b }
{
    let s = a + b;
    if exact_sum(a, b) {
        return s;
    }
    next_down(s)
}

fn high_sum(a: f64, b: f64) -> f64
    ensures { result ≡ high_sum a b }
{
    let s = a + b;
    if exact_sum(a, b) {
        return s;
    }
    next_up(s)
}

fn sign_of(lo: f64, hi: f64) -> Sign
    ensures { result ≡ sign_of lo hi }
{
    if 0.0 < lo {
        return Sign::Positive;
    }
    if hi < 0.0 {
        return Sign::Negative;
    }
    if lo == 0.0 {
        if hi == 0.0 {
            return Sign::Zero;
        }
    }
    Sign::Unresolved
}

impl Interval {
    // The interval of one number, and the whole line for a NaN.
    pub fn point(value: f64) -> Interval
        ensures { result ≡ point_i value }
    {
        checked(value, value)
    }

    pub fn add(self, o: Interval) -> Interval
        ensures { result ≡ add_i self o }
    {
        checked(low_sum(self.lo, o.lo), high_sum(self.hi, o.hi))
    }

    pub fn sub(self, o: Interval) -> Interval
        ensures { result ≡ sub_i self o }
    {
        checked(low_sum(self.lo, -o.hi), high_sum(self.hi, -o.lo))
    }

    pub fn mul(self, o: Interval) -> Interval
        ensures { result ≡ mul_i self o }
    {
        let a = self.lo * o.lo;
        let b = self.lo * o.hi;
        let c = self.hi * o.lo;
        let d = self.hi * o.hi;
        outward(
            least(least(a, b), least(c, d)),
            greatest(greatest(a, b), greatest(c, d)),
        )
    }

    // No bound moves, since a change of sign is exact.
    pub fn neg(self) -> Interval
        ensures { result ≡ neg_i self }
    {
        checked(-self.hi, -self.lo)
    }

    // Whether value lies inside the interval.
    pub fn contains(self, value: f64) -> bool
        ensures { result ≡ contains_i self value }
    {
        (self.lo <= value) & (value <= self.hi)
    }

    // The square, which unlike x * x is never negative.
    pub fn sqr(self) -> Interval
        ensures { result ≡ sqr_i self }
    {
        let a = self.lo * self.lo;
        let b = self.hi * self.hi;
        checked(
            square_low(self.contains(0.0), least(a, b)),
            next_up(greatest(a, b)),
        )
    }

    pub fn sign(self) -> Sign
        ensures { result ≡ sign_i self }
    {
        sign_of(self.lo, self.hi)
    }
}
