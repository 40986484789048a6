// Program: the rows of 01's table 'Trial stone', asked of the code and printed: a float as its bits, a refusal as its number.
#![tactic(auto)]

use check_fault_list::Fault;
use edit_lists::strike_entry;
use float_vectors::vector::Point3;
use interval_arithmetic::Interval;
use memory_layout::names::{BODY_REGIONS, LOOP_FINS, REGION_SHELLS};
use memory_lookups::{VertexFound, vertex};
use office_measures::{body_bounding_box, body_volume, check_body, fit_to_saw};
use office_sheets::{TakenIn, taken};
use office_slabs::body_profile;
use office_views::{body_edges, body_faces, body_vertices};
use replay_digits::bits_of;
use sheet_words::StoneSheet;
use slab_profile::Profile;
use slab_rules::Verdict;
use split_edge::split_line_edge;
use station_answers::{BoxFound, Checked, Sawable, Split, Volume};
use trial_faults::{Kept, entries};
use trial_inserts::{OFFICE, ROOM, trial_stone};

fn print_float(x: f64) {
    io::write_all(1, b" ");
    io::print_hex(1, bits_of(x), 16);
}

fn print_point(p: Point3) {
    print_float(p.x);
    print_float(p.y);
    print_float(p.z);
}

fn print_refusal(n: u32) {
    io::write_all(1, b" refused with ");
    io::print_decimal(1, n as u64);
}

fn print_number(n: u32) {
    io::write_all(1, b" ");
    io::print_decimal(1, n as u64);
}

fn print_ids(ids: &[u32]) {
    for id in ids {
        print_number(*id);
    }
}

// The part of a list that a walk handed back: how many ids, and which, or why none.
fn handed(part: &[u32], code: u32) {
    io::print_decimal(1, part.len() as u64);
    io::write_all(1, b":");
    print_ids(part);
    if code != 0 {
        print_refusal(code);
    }
    io::write_all(1, b"; the list holds");
}

// All that the list holds behind the walk.
fn held(list: &[u32]) {
    print_ids(list);
    io::write_all(1, b"\n");
}

fn faces_into(words: &[u32], reals: &[f64], out: &mut [u32]) {
    io::write_all(1, b"faces, ");
    let mut marks = [0u8; 6];
    let mut code = 0;
    let part = body_faces(&ROOM, words, reals, OFFICE, 0, &mut marks, out, &mut code);
    handed(part, code);
    held(out);
}

fn edges_into(words: &[u32], reals: &[f64], out: &mut [u32]) {
    io::write_all(1, b"edges, ");
    let mut marks = [0u8; 6];
    let mut seen = [0u8; 13];
    let mut code = 0;
    let part = body_edges(
        &ROOM, words, reals, OFFICE, 0, &mut marks, &mut seen, out, &mut code,
    );
    handed(part, code);
    held(out);
}

fn vertices_into(words: &[u32], reals: &[f64], out: &mut [u32]) {
    io::write_all(1, b"vertices, ");
    let mut marks = [0u8; 6];
    let mut seen = [0u8; 13];
    let mut met = [0u8; 9];
    let mut code = 0;
    let part = body_vertices(
        &ROOM, words, reals, OFFICE, 0, &mut marks, &mut seen, &mut met, out, &mut code,
    );
    handed(part, code);
    held(out);
}

// The walks into lists that hold 99 at each place: one place more than a walk needs, then one less.
fn walks(words: &[u32; 8379], reals: &[f64; 158]) {
    let w = &words[..];
    let x = &reals[..];
    let mut more = [99u32; 7];
    faces_into(w, x, &mut more);
    let mut less = [99u32; 5];
    faces_into(w, x, &mut less);
    let mut more = [99u32; 13];
    edges_into(w, x, &mut more);
    let mut less = [99u32; 11];
    edges_into(w, x, &mut less);
    let mut more = [99u32; 9];
    vertices_into(w, x, &mut more);
    let mut less = [99u32; 7];
    vertices_into(w, x, &mut less);
}

fn volume(words: &[u32; 8379], reals: &[f64; 158]) {
    let mut marks = [0u8; 6];
    io::write_all(1, b"volume:");
    match body_volume(&ROOM, &words[..], &reals[..], OFFICE, 0, &mut marks) {
        Volume::Is(v) => print_float(v),
        Volume::Refused(n) => print_refusal(n),
    }
    io::write_all(1, b"\n");
}

fn print_sheet(s: StoneSheet) {
    io::write_all(1, b" ");
    io::print_decimal(1, s.low);
    io::write_all(1, b", ");
    io::print_decimal(1, s.stones);
    io::write_all(1, b" stones");
}

fn print_taken(t: TakenIn) {
    if t.refused != 0 {
        print_refusal(t.refused);
    } else {
        print_sheet(t.sheet);
    }
}

// Body 0 taken in on a new sheet: the lower word of the total, and the number of stones.
fn whole(words: &[u32; 8379], reals: &[f64; 158]) {
    let mut marks = [0u8; 6];
    let blank = StoneSheet {
        stones: 0,
        low: 0,
        high: 0,
        body: 0,
        largest: 0,
    };
    io::write_all(1, b"whole:");
    print_taken(taken(&ROOM, &words[..], &reals[..], OFFICE, 0, &mut marks, blank));
    io::write_all(1, b"\n");
}

fn print_area(n: u64) {
    io::write_all(1, b" ");
    io::print_decimal(1, n);
}

fn print_areas(areas: &[u64]) {
    for area in areas {
        print_area(*area);
    }
}

fn print_broken(v: Verdict) {
    io::write_all(1, b" rule ");
    io::print_decimal(1, v.rule as u64);
    io::write_all(1, b" broken by ");
    io::print_decimal(1, v.entity);
}

fn print_profile(answer: Profile) {
    match answer {
        Profile::Accepted(total) => print_area(total),
        Profile::Broken(v) => print_broken(v),
        Profile::Refused(n) => print_refusal(n),
    }
}

// Body 0 as a slab: the area in all, then that of each face.
fn slab_into(words: &[u32], reals: &[f64], areas: &mut [u64]) {
    let mut marks = [0u8; 6];
    let mut seen = [0u8; 13];
    io::write_all(1, b"slab:");
    print_profile(body_profile(&ROOM, words, reals, OFFICE, 0, &mut marks, &mut seen, areas));
    io::write_all(1, b"; faces");
    print_areas(areas);
    io::write_all(1, b"\n");
}

fn slab(words: &[u32; 8379], reals: &[f64; 158]) {
    let mut areas = [0u64; 6];
    slab_into(&words[..], &reals[..], &mut areas);
}

fn print_box(answer: BoxFound) {
    match answer {
        BoxFound::Is(b) => {
            print_point(b.min);
            print_point(b.max);
        }
        BoxFound::Refused(n) => print_refusal(n),
    }
}

fn corners(words: &[u32; 8379], reals: &[f64; 158]) {
    let mut marks = [0u8; 6];
    let mut seen = [0u8; 13];
    let mut met = [0u8; 9];
    io::write_all(1, b"box:");
    print_box(body_bounding_box(
        &ROOM,
        &words[..],
        &reals[..],
        OFFICE,
        0,
        &mut marks,
        &mut seen,
        &mut met,
    ));
    io::write_all(1, b"\n");
}

fn print_vertex(words: &[u32; 8379], reals: &[f64; 158], id: u32) {
    match vertex(&ROOM, &words[..], &reals[..], id as usize) {
        VertexFound::Is(v) => print_point(v.point),
        VertexFound::Refused(n) => print_refusal(n),
    }
}

// The vertex that a split of A made, or the refusal.
fn cut(words: &mut [u32; 8379], reals: &mut [f64; 158], fraction: f64) -> Split {
    split_line_edge(&ROOM, &mut words[..], &mut reals[..], OFFICE, 0, fraction)
}

// A of a new stone, split at a fraction: where the new vertex lies.
fn split_at(words: &mut [u32; 8379], reals: &mut [f64; 158], fraction: f64) {
    trial_stone(&ROOM, words, reals);
    io::write_all(1, b"A at");
    print_float(fraction);
    io::write_all(1, b":");
    match cut(words, reals, fraction) {
        Split::Is(made) => print_vertex(words, reals, made.vertex),
        Split::Refused(n) => print_refusal(n),
    }
    io::write_all(1, b"\n");
}

fn print_fault(f: Fault) {
    io::write_all(1, b"; kind, class, id, reason:");
    print_number(f.kind);
    print_number(f.class);
    print_number(f.id);
    print_number(f.reason);
}

// The faults that a list of structs begins with.
fn print_faults(found: Kept) {
    for fault in found.list.iter().take(found.count) {
        print_fault(*fault);
    }
}

fn print_report(answer: Checked, list: &[u32; 16]) {
    match answer {
        Checked::Is(counts) => {
            io::write_all(1, b" ");
            io::print_decimal(1, counts.faults as u64);
            io::write_all(1, b" faults");
            print_faults(entries(&list[..], counts.kept));
        }
        Checked::Refused(n) => print_refusal(n),
    }
}

fn report(words: &[u32; 8379], reals: &[f64; 158]) {
    let mut marks = [0u8; 6];
    let mut seen = [0u8; 13];
    let mut list = [0u32; 16];
    let answer = check_body(
        &ROOM, words, reals, OFFICE, 0, false, 0, &mut marks, &mut seen, &mut list,
    );
    io::write_all(1, b"report:");
    print_report(answer, &list);
    io::write_all(1, b"\n");
}

fn print_verdict(answer: Sawable) {
    match answer {
        Sawable::Is(fit) => {
            if fit {
                io::write_all(1, b"fit");
            } else {
                io::write_all(1, b"not fit");
            }
        }
        Sawable::Refused(n) => print_refusal(n),
    }
}

fn verdict(words: &[u32; 8379], reals: &[f64; 158]) {
    let mut marks = [0u8; 6];
    let mut seen = [0u8; 13];
    print_verdict(fit_to_saw(
        &ROOM,
        &words[..],
        &reals[..],
        OFFICE,
        0,
        &mut marks,
        &mut seen,
    ));
    io::write_all(1, b"\n");
}

fn sum() {
    let s = Interval::point(1.0).add(Interval::point(2.0));
    io::write_all(1, b"1 + 2:");
    print_float(s.lo);
    print_float(s.hi);
    io::write_all(1, b"\n");
}

fn splits(words: &mut [u32; 8379], reals: &mut [f64; 158]) {
    split_at(words, reals, 0.25);
    split_at(words, reals, 0.0);
    split_at(words, reals, 1.0);
    split_at(words, reals, 0.0 / 0.0);
    split_at(words, reals, 0.000244140625);
    split_at(words, reals, 0.00048828125);
}

// Strikes an entry out of a list.
fn strike(words: &mut [u32; 8379], reals: &[f64; 158], j: usize, i: usize, place: usize) {
    strike_entry(&ROOM, &mut words[..], &reals[..], j, i, place);
}

fn main() {
    let mut words = [0u32; 8379];
    let mut reals = [0.0; 158];
    trial_stone(&ROOM, &mut words, &mut reals);
    walks(&words, &reals);
    volume(&words, &reals);
    whole(&words, &reals);
    slab(&words, &reals);
    corners(&words, &reals);
    splits(&mut words, &mut reals);
    trial_stone(&ROOM, &mut words, &mut reals);
    strike(&mut words, &reals, LOOP_FINS, 0, 3);
    io::write_all(1, b"last fin struck from one loop; ");
    report(&words, &reals);
    trial_stone(&ROOM, &mut words, &mut reals);
    strike(&mut words, &reals, BODY_REGIONS, 0, 1);
    strike(&mut words, &reals, REGION_SHELLS, 0, 0);
    io::write_all(1, b"a void region only; ");
    report(&words, &reals);
    io::write_all(1, b"a void region only; ");
    volume(&words, &reals);
    io::write_all(1, b"a void region only; ");
    whole(&words, &reals);
    io::write_all(1, b"a void region only; ");
    verdict(&words, &reals);
    sum();
}
