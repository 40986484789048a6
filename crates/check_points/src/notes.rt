// What a query's refusal and a sign lead to, logged, and the parameters of samples (`geometry_error` and parts of `fin_geometry` of
// gensolid-check's lib.rs).
ghost use Rattle.std.specs.Prelude.{◌≡◌, cond, [], ◌≤◌, ◌<◌};
ghost use Rattle.meaning.specs.Faults.{about, geometry_error, off_curve, sample_at};
ghost use Rattle.check_reasons.specs.Log.{class_at, Noted, Enough};
ghost use Rattle.check_points.specs.Points.{code_findings, error_code, surface_code};

use check_reasons::{Tally, VERTEX, note, skip};
use geom_lines_planes::refusal::Refusal;
use interval_arithmetic::Sign;

// What is found, by a code: 0 is nothing, a reason is its fault, and this a check that was not made. So a query and a measurement come to one call of `note`: with more of them `point_on_surface` is
// too long to be put in line where the samples are taken, and a report with three samples takes a quarter more.
const NOT_MADE: u32 = 27;

pub fn log_code(nums: &mut [u32], t: Tally, code: u32, asked: u32, id: u32) -> Tally
    requires code_bound { (code ≤ 27) × (asked < 8) }
    requires enough { Enough t (code_findings code (about (class_at asked) id)) }
    ensures { Noted (code_findings code (about (class_at asked) id)) nums.old t nums.new result }
{
    if code == 0 {
        return t;
    }
    if code == NOT_MADE {
        return skip(t);
    }
    note(nums, t, code, asked, id)
}

// A query's refusal: 7 is a check not made, 2 is reason 25, any other is reason 26.
fn error_code(n: u32) -> u32
    ensures { result ≡ error_code n }
{
    if n == 7 {
        return NOT_MADE;
    }
    if n == 2 {
        return 25;
    }
    26
}

pub fn geometry_error(nums: &mut [u32], t: Tally, n: u32, asked: u32, id: u32) -> Tally
    requires n_nonzero { (0 < n) × (asked < 8) }
    requires enough { Enough t (geometry_error (about (class_at asked) id) n []) }
    ensures { Noted (geometry_error (about (class_at asked) id) n []) nums.old t nums.new result }
{
    log_code(nums, t, error_code(n), asked, id)
}

// Reason n where it is off.
fn off_code(off: bool, n: u32) -> u32
    ensures { result ≡ cond off n 0 }
{
    if off {
        return n;
    }
    0
}

// A distance from a surface: reason n where it is above the tolerance.
pub fn surface_code(m: Result<f64, Refusal>, tolerance: f64, n: u32) -> u32
    ensures { result ≡ surface_code m tolerance n }
{
    match m {
        Err(refusal) => error_code(refusal.number()),
        Ok(distance) => off_code(tolerance < distance, n),
    }
}

pub fn note_off_curve(nums: &mut [u32], t: Tally, sign: Sign, v: u32) -> Tally
    requires { Enough t (off_curve sign v) }
    ensures { Noted (off_curve sign v) nums.old t nums.new result }
{
    match sign {
        Sign::Negative => t,
        Sign::Zero => t,
        Sign::Positive => note(nums, t, 22, VERTEX, v),
        Sign::Unresolved => skip(t),
    }
}

// The parameter of sample k of n.
pub fn sample_at(t0: f64, t1: f64, n: u32, k: u32) -> f64
    requires { n ≤ 255 }
    ensures { result ≡ sample_at t0 t1 n k }
{
    t0 + (t1 - t0) * (k as f64) / ((n + 1) as f64)
}
