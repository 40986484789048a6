// Inner: what is found of a fin (`fin` and `fin_geometry` of gensolid-check's lib.rs).
#![tactic(auto)]

ghost use Rattle.std.proofs.Math.Option.{some};
ghost use Rattle.std.specs.Prelude.{◌≤◌, ◌<◌};
ghost use Rattle.meaning.specs.Lists.{listed, joined};
ghost use Rattle.meaning.specs.Model.{edge};
ghost use Rattle.meaning.specs.Faults.{carried, fin_findings};
ghost use Rattle.memory_layout.specs.Names.{EDGES};
ghost use Rattle.memory_layout.specs.Layout.{word};
ghost use Rattle.memory_layout.specs.Decode.{decode};
ghost use Rattle.memory_layout.specs.Fit.{Fit};
ghost use Rattle.check_reasons.specs.Log.{Noted, Enough};
ghost use Rattle.check_ends.specs.Ends.{ref_of};
ghost use Rattle.check_fin.specs.Fin.{lacking, vertices_there, fin_edge, fin_on};

use check_edge::rim;
use check_reasons::{EDGE, FIN, LOOP, Tally, done, note, note_if};
use memory_layout::names::{EDGE_FINS, EDGES, FINS, VERTICES};
use memory_lists::list;
use memory_reads::carriers::{curve_found, surface_found};
use memory_reads::{edge_at, fin_at};
use memory_records::records::in_effect;
use walk_marks::has;

// Reason 17 on the edge e where an end of it names no vertex; there are `used`.
fn end_there(nums: &mut [u32], t: Tally, used: u32, e: u32, end: Option<u32>) -> Tally
    requires { Enough t (joined (lacking used e) (listed (ref_of end))) }
    ensures { Noted (joined (lacking used e) (listed (ref_of end))) nums.old t nums.new result }
{
    match end {
        None => t,
        Some(v) => note_if(nums, t, !(v < used), 17, EDGE, e),
    }
}

// The same of both ends.
fn ends_there(
    room: &[usize; 10],
    words: &[u32],
    reals: &[f64],
    nums: &mut [u32],
    t: Tally,
    e: u32,
) -> Tally
    requires fit { Fit room.now words.now reals.now }
    requires e_bound { e < word words.now EDGES }
    requires enough { Enough t (vertices_there (decode room.now words.now reals.now) e) }
    ensures { Noted (vertices_there (decode room.now words.now reals.now) e) nums.old t nums.new result }
{
    let edge = edge_at(room, words, reals, e as usize);
    let start = edge.start;
    let end = edge.end;
    let a = end_there(nums, t, words[VERTICES], e, start);
    end_there(nums, a, words[VERTICES], e, end)
}

// The fin i names the edge e.
fn fin_edge(
    room: &[usize; 10],
    words: &[u32],
    reals: &[f64],
    nums: &mut [u32],
    t: Tally,
    i: u32,
    e: u32,
) -> Tally
    requires fit { Fit room.now words.now reals.now }
    requires enough { Enough t (fin_edge (decode room.now words.now reals.now) i e) }
    ensures { Noted (fin_edge (decode room.now words.now reals.now) i e) nums.old t nums.new result }
{
    if done(t) {
        return t;
    }
    if words[EDGES] <= e {
        return note(nums, t, 15, FIN, i);
    }
    let listed = has(list(room, words, EDGE_FINS, e as usize), i);
    let a = note_if(nums, t, !listed, 16, EDGE, e);
    ends_there(room, words, reals, nums, a, e)
}

// The loop l lists the fin i.
pub fn fin(
    room: &[usize; 10],
    words: &[u32],
    reals: &[f64],
    nums: &mut [u32],
    t: Tally,
    l: u32,
    i: u32,
) -> Tally
    requires fit { Fit room.now words.now reals.now }
    requires enough { Enough t (fin_findings (decode room.now words.now reals.now) l i) }
    ensures { Noted (fin_findings (decode room.now words.now reals.now) l i) nums.old t nums.new result }
{
    if done(t) {
        return t;
    }
    if words[FINS] <= i {
        return note(nums, t, 13, LOOP, l);
    }
    let fin = fin_at(room, words, i as usize);
    let a = note_if(nums, t, fin.owner != l, 14, FIN, i);
    fin_edge(room, words, reals, nums, a, i, fin.edge)
}

// The edge e on its curve c and the surface s.
fn carried_on(
    room: &[usize; 10],
    words: &[u32],
    reals: &[f64],
    nums: &mut [u32],
    t: Tally,
    n: u32,
    e: u32,
    c: u32,
    s: u32,
) -> Tally
    requires fit { Fit room.now words.now reals.now }
    requires n_bound { (n ≤ 255) × (e < word words.now EDGES) }
    requires enough { Enough t (carried (decode room.now words.now reals.now) n e (some c) (some s)) }
    ensures { Noted (carried (decode room.now words.now reals.now) n e (some c) (some s)) nums.old t nums.new result }
{
    let edge = edge_at(room, words, reals, e as usize);
    let local = edge.tolerance;
    let tol = in_effect(words, reals, local);
    let curve = curve_found(room, words, reals, c as usize);
    let surface = surface_found(room, words, reals, s as usize);
    rim(room, words, reals, nums, t, curve, surface, tol, n, e, edge)
}

// The edge e on its curve and a face's surface, where there are both; reason 21 where there is no curve.
fn edge_geometry(
    room: &[usize; 10],
    words: &[u32],
    reals: &[f64],
    nums: &mut [u32],
    t: Tally,
    n: u32,
    e: u32,
    surface: Option<u32>,
) -> Tally
    requires fit { Fit room.now words.now reals.now }
    requires n_bound { (n ≤ 255) × (e < word words.now EDGES) }
    requires enough { Enough t (carried (decode room.now words.now reals.now) n e (edge (decode room.now words.now reals.now) e).curve (ref_of surface)) }
    ensures { Noted (carried (decode room.now words.now reals.now) n e (edge (decode room.now words.now reals.now) e).curve (ref_of surface)) nums.old t nums.new result }
{
    let edge = edge_at(room, words, reals, e as usize);
    let curve = edge.curve;
    match curve {
        None => note(nums, t, 21, EDGE, e),
        Some(c) => match surface {
            None => t,
            Some(s) => carried_on(room, words, reals, nums, t, n, e, c, s),
        },
    }
}

// The geometry of the fin i of a face with that surface, with n samples.
pub fn fin_geometry(
    room: &[usize; 10],
    words: &[u32],
    reals: &[f64],
    nums: &mut [u32],
    t: Tally,
    n: u32,
    surface: Option<u32>,
    i: u32,
) -> Tally
    requires fit { Fit room.now words.now reals.now }
    requires n_bound { n ≤ 255 }
    requires enough { Enough t (fin_on (decode room.now words.now reals.now) n (ref_of surface) i) }
    ensures { Noted (fin_on (decode room.now words.now reals.now) n (ref_of surface) i) nums.old t nums.new result }
{
    if done(t) {
        return t;
    }
    if words[FINS] <= i {
        return t;
    }
    let e = fin_at(room, words, i as usize).edge;
    if words[EDGES] <= e {
        return t;
    }
    edge_geometry(room, words, reals, nums, t, n, e, surface)
}
