// Inner: the fan of a loop (`polygon_volume` of inquire.rs). Its points are where the fins start; of them the first and two others are held
// (W-204), and for a front side the fins are walked backwards.
#![tactic(auto)]

ghost use Rattle.std.specs.Prelude.{◌≡◌, cond, map, ◌-◌, ◌<◌, ◌≤◌, length, get_or};
ghost use Rattle.meaning.specs.Inquire.{polygon_volume};
ghost use Rattle.memory_layout.specs.Decode.{decode};
ghost use Rattle.memory_layout.specs.Fit.{Fit};
ghost use Rattle.inquire_fin_starts.specs.Starts.{start_point, Rim};
ghost use Rattle.inquire_fan.specs.Fan.{origin_p, wedge, turned};

use float_vectors::vector::{Point3, Vec3};
use inquire_fin_starts::start_point;

// Which of n fins has corner k, counted from the first or from the last.
fn place(n: usize, back: bool, k: usize) -> usize
    requires { k < n }
    ensures { (result ≡ cond back (n - 1 - k) k) × (result < n) }
{
    if back {
        return n - 1 - k;
    }
    k
}

// Corner k, counted so.
pub fn corner(
    room: &[usize; 10],
    words: &[u32],
    reals: &[f64],
    fins: &[u32],
    back: bool,
    k: usize,
) -> Point3
    requires fit { Fit room.now words.now reals.now }
    requires rim { Rim room.now words.now fins.now }
    requires k_in_bounds { k < length fins.now }
    ensures { result ≡ get_or (turned back (map (start_point (decode room.now words.now reals.now)) fins.now)) k origin_p }
{
    let i = place(fins.len(), back, k);
    start_point(room, words, reals, fins[i] as usize)
}

// One triangle of the fan from o: o·((p - o) × (q - o)).
fn wedge(o: Point3, p: Point3, q: Point3) -> f64
    ensures { result ≡ wedge o p q }
{
    let a = p.sub(o);
    let b = q.sub(o);
    let way = Vec3 {
        x: o.x,
        y: o.y,
        z: o.z,
    };
    way.dot(a.cross(b))
}

// The signed volume of the cone from the origin to the polygon of the corners.
pub fn polygon_volume(
    room: &[usize; 10],
    words: &[u32],
    reals: &[f64],
    fins: &[u32],
    back: bool,
) -> f64
    requires fit { Fit room.now words.now reals.now }
    requires rim { Rim room.now words.now fins.now }
    requires in_bounds { (3 ≤ length fins.now) × (length fins.now ≤ 1024) }
    ensures { result ≡ polygon_volume (turned back (map (start_point (decode room.now words.now reals.now)) fins.now)) }
{
    let o = corner(room, words, reals, fins, back, 0);
    let mut p = corner(room, words, reals, fins, back, 1);
    let mut acc = 0.0;
    for k in 1..fins.len() - 1 {
        let q = corner(room, words, reals, fins, back, k + 1);
        acc = acc + wedge(o, p, q);
        p = q;
    }
    acc / 6.0
}
