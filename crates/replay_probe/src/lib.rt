// Inner: one operation of the numbers and the geometry by its number, for the runs against the Rust. Twelve floats go in, a number and six
// floats come out. The program replay_numbers and compare/ ask through the same function, so that both ask the same thing.
// It is a test's driver and no call of the station: its contract says nothing, and a mistake in it shows as a difference.
#![tactic(auto)]

use float_vectors::vector::{Point3, Vec3};
use geom_carriers::Carrier;
use geom_lines_planes::curve::Line;
use geom_lines_planes::surface::Plane;
use geom_lines_planes::tolerance::{Tolerance, Version, effective_tolerance};
use interval_arithmetic::{Interval, Sign};
use interval_vectors::Interval3;

// ---- the answers

fn put(out: &mut [f64; 6], a: f64) -> u32 {
    out[0] = a;
    0
}

fn put_interval(out: &mut [f64; 6], i: Interval) -> u32 {
    out[0] = i.lo;
    out[1] = i.hi;
    0
}

fn put_vec(out: &mut [f64; 6], v: Vec3) -> u32 {
    out[0] = v.x;
    out[1] = v.y;
    out[2] = v.z;
    0
}

fn put_point(out: &mut [f64; 6], p: Point3) -> u32 {
    out[0] = p.x;
    out[1] = p.y;
    out[2] = p.z;
    0
}

fn put_intervals(out: &mut [f64; 6], v: Interval3) -> u32 {
    out[0] = v.x.lo;
    out[1] = v.x.hi;
    out[2] = v.y.lo;
    out[3] = v.y.hi;
    out[4] = v.z.lo;
    out[5] = v.z.hi;
    0
}

fn put_projection(out: &mut [f64; 6], param: f64, p: Point3) -> u32 {
    out[0] = param;
    out[1] = p.x;
    out[2] = p.y;
    out[3] = p.z;
    0
}

fn truth(b: bool) -> u32 {
    if b { 1 } else { 0 }
}

fn sign(s: Sign) -> u32 {
    match s {
        Sign::Negative => 0,
        Sign::Zero => 1,
        Sign::Positive => 2,
        Sign::Unresolved => 3,
    }
}

// ---- the operands

fn first_interval(x: &[f64; 12]) -> Interval {
    Interval { lo: x[0], hi: x[1] }
}

fn second_interval(x: &[f64; 12]) -> Interval {
    Interval { lo: x[2], hi: x[3] }
}

fn first_intervals(x: &[f64; 12]) -> Interval3 {
    Interval3 {
        x: Interval { lo: x[0], hi: x[1] },
        y: Interval { lo: x[2], hi: x[3] },
        z: Interval { lo: x[4], hi: x[5] },
    }
}

fn second_intervals(x: &[f64; 12]) -> Interval3 {
    Interval3 {
        x: Interval { lo: x[6], hi: x[7] },
        y: Interval { lo: x[8], hi: x[9] },
        z: Interval {
            lo: x[10],
            hi: x[11],
        },
    }
}

fn first_point(x: &[f64; 12]) -> Point3 {
    Point3 {
        x: x[0],
        y: x[1],
        z: x[2],
    }
}

fn second_point(x: &[f64; 12]) -> Point3 {
    Point3 {
        x: x[3],
        y: x[4],
        z: x[5],
    }
}

fn third_point(x: &[f64; 12]) -> Point3 {
    Point3 {
        x: x[6],
        y: x[7],
        z: x[8],
    }
}

fn first_vec(x: &[f64; 12]) -> Vec3 {
    Vec3 {
        x: x[0],
        y: x[1],
        z: x[2],
    }
}

fn second_vec(x: &[f64; 12]) -> Vec3 {
    Vec3 {
        x: x[3],
        y: x[4],
        z: x[5],
    }
}

fn line(x: &[f64; 12]) -> Line {
    Line {
        origin: first_point(x),
        direction: second_vec(x),
    }
}

fn plane(x: &[f64; 12]) -> Plane {
    Plane {
        origin: first_point(x),
        normal: second_vec(x),
    }
}

fn found(x: &[f64; 12]) -> Option<Carrier> {
    if x[11] == 0.0 {
        return None;
    }
    if x[11] == 1.0 {
        return Some(Carrier::Line(line(x)));
    }
    if x[11] == 2.0 {
        return Some(Carrier::Plane(plane(x)));
    }
    Some(Carrier::Other)
}

// ---- the operations

fn interval_of(op: u32, a: Interval, b: Interval) -> Interval {
    match op {
        2 => Interval::point(a.lo),
        3 => a.add(b),
        4 => a.sub(b),
        5 => a.mul(b),
        6 => a.neg(),
        _ => a.sqr(),
    }
}

fn interval_test(op: u32, a: Interval, value: f64) -> u32 {
    match op {
        8 => truth(a.contains(value)),
        9 => sign(a.sign()),
        _ => truth(float_vectors::vector::is_finite(a.lo)),
    }
}

fn vec_of(op: u32, v: Vec3, w: Vec3) -> Vec3 {
    match op {
        13 => v.add(w),
        14 => v.sub(w),
        15 => v.mul(w.x),
        _ => v.cross(w),
    }
}

fn vector_op(op: u32, x: &[f64; 12], out: &mut [f64; 6]) -> u32 {
    match op {
        11 => put_vec(out, first_point(x).sub(second_point(x))),
        12 => put_point(out, first_point(x).add(second_vec(x))),
        16 => put(out, first_vec(x).dot(second_vec(x))),
        18 => truth(first_point(x).is_finite()),
        _ => put_vec(out, vec_of(op, first_vec(x), second_vec(x))),
    }
}

fn intervals_op(op: u32, x: &[f64; 12], out: &mut [f64; 6]) -> u32 {
    match op {
        19 => put_intervals(out, interval_vectors::point3(first_vec(x))),
        20 => put_intervals(
            out,
            interval_vectors::vector(first_point(x), second_point(x)),
        ),
        _ => put_interval(
            out,
            interval_vectors::dot(first_intervals(x), second_intervals(x)),
        ),
    }
}

fn local(own: f64, value: f64) -> Tolerance {
    if own != 0.0 {
        return Tolerance::Own(value);
    }
    Tolerance::Session
}

fn tolerance(version: Version, x: &[f64; 12]) -> f64 {
    effective_tolerance(version, local(x[0], x[1]), x[2])
}

fn geometry_op(op: u32, x: &[f64; 12], out: &mut [f64; 6]) -> u32 {
    match op {
        22 => put_point(out, line(x).eval(x[6])),
        23 => put(out, line(x).closest_param(third_point(x))),
        24 => put(out, plane(x).distance(third_point(x))),
        25 => put(out, tolerance(Version::First, x)),
        _ => put(out, tolerance(Version::Second, x)),
    }
}

fn evaluated(curve: Option<Carrier>, t: f64, out: &mut [f64; 6]) -> u32 {
    match geom_queries::eval_curve(curve, t) {
        Ok(p) => put_point(out, p),
        Err(refusal) => refusal.number(),
    }
}

fn projected(curve: Option<Carrier>, p: Point3, out: &mut [f64; 6]) -> u32 {
    match geom_queries::project_to_curve(curve, p) {
        Ok(w) => put_projection(out, w.param, w.point),
        Err(refusal) => refusal.number(),
    }
}

fn measured(surface: Option<Carrier>, p: Point3, out: &mut [f64; 6]) -> u32 {
    match geom_queries::distance_to_surface(surface, p) {
        Ok(d) => put(out, d),
        Err(refusal) => refusal.number(),
    }
}

fn query(op: u32, x: &[f64; 12], out: &mut [f64; 6]) -> u32 {
    match op {
        26 => evaluated(found(x), x[6], out),
        27 => projected(found(x), third_point(x), out),
        _ => measured(found(x), third_point(x), out),
    }
}

fn sign_test(op: u32, x: &[f64; 12]) -> Sign {
    match op {
        29 => geom_signs::increasing(first_vec(x), second_point(x), third_point(x)),
        30 => geom_signs::span(x[0], x[1]),
        31 => geom_signs::apart(first_point(x), second_point(x), x[6]),
        32 => geom_signs::offsets::off_plane(plane(x), third_point(x), x[9]),
        _ => geom_signs::offsets::off_curve(first_point(x), second_point(x), x[6], x[7]),
    }
}

fn clear(out: &mut [f64; 6]) {
    out[0] = 0.0;
    out[1] = 0.0;
    out[2] = 0.0;
    out[3] = 0.0;
    out[4] = 0.0;
    out[5] = 0.0;
}

// compare/README.md has the table of the numbers. An unknown one answers the largest u32.
#[unsafe(no_mangle)]
pub extern "C" fn brunskerl_probe(op: u32, x: &[f64; 12], out: &mut [f64; 6]) -> u32 {
    clear(out);
    match op {
        0 => put(out, float_order::next_up(x[0])),
        1 => put(out, float_order::next_down(x[0])),
        2..=7 => put_interval(out, interval_of(op, first_interval(x), second_interval(x))),
        8..=10 => interval_test(op, first_interval(x), x[2]),
        11..=18 => vector_op(op, x, out),
        19..=21 => intervals_op(op, x, out),
        22..=25 | 34 => geometry_op(op, x, out),
        26..=28 => query(op, x, out),
        29..=33 => sign(sign_test(op, x)),
        _ => 4294967295,
    }
}
