// Program: the trial stone's night (W-202, W-211). Splits edge A of the trial stone at 0.25, writes its image, reads it over memory that held other things, in version 1 and then in version 2, and prints each time:
// how many bytes; how many bodies, regions, shells, faces, loops, fins, edges, vertices, curves, surfaces were read back, and of which version; and last whether the images of those are the first ones.
#![tactic(auto)]

use image_reader::read_image;
use image_writer::{Length, write_image};
use memory_layout::names::{
    BODIES, CURVES, EDGES, FACES, FINS, LOOPS, REGIONS, SHELLS, SURFACES, VERSION, VERTICES,
};
use split_edge::split_line_edge;
use station_answers::Split;
use trial_inserts::{OFFICE, ROOM, trial_stone};

// Whether A was split at 0.25.
fn cut(words: &mut [u32; 8379], reals: &mut [f64; 158]) -> bool {
    match split_line_edge(&ROOM, &mut words[..], &mut reals[..], OFFICE, 0, 0.25) {
        Split::Is(_) => true,
        Split::Refused(_) => false,
    }
}

// The image, and how long it is; 0 where it is refused.
fn save(words: &[u32; 8379], reals: &[f64; 158], bytes: &mut [u8; 4096]) -> usize {
    match write_image(&ROOM, &words[..], &reals[..], &mut bytes[..]) {
        Length::Is(n) => n,
        Length::Refused(_) => 0,
    }
}

// The model of the first n bytes.
fn front(words: &mut [u32; 8379], reals: &mut [f64; 158], bytes: &[u8], n: usize) -> bool {
    if bytes.len() < n {
        return false;
    }
    read_image(&ROOM, &mut words[..], &mut reals[..], &bytes[..n]) == 0
}

fn load(words: &mut [u32; 8379], reals: &mut [f64; 158], bytes: &[u8; 4096], n: usize) -> bool {
    front(words, reals, &bytes[..], n)
}

fn print_word(n: u32) {
    io::print_decimal(1, n as u64);
}

fn print_count(n: u32) {
    io::write_all(1, b" ");
    print_word(n);
}

// The used counts, and the version.
fn print_counts(words: &[u32; 8379]) {
    print_word(words[BODIES]);
    print_count(words[REGIONS]);
    print_count(words[SHELLS]);
    print_count(words[FACES]);
    print_count(words[LOOPS]);
    print_count(words[FINS]);
    print_count(words[EDGES]);
    print_count(words[VERTICES]);
    print_count(words[CURVES]);
    print_count(words[SURFACES]);
    print_count(words[VERSION]);
    io::write_all(1, b"\n");
}

fn same(a: &[u8; 4096], b: &[u8; 4096]) -> bool {
    a == b
}

fn print_number(n: usize) {
    io::print_decimal(1, n as u64);
    io::write_all(1, b"\n");
}

// The image written, read over memory that held other things, and written again: whether it is the same.
fn night(words: &[u32; 8379], reals: &[f64; 158]) -> bool {
    let mut bytes = [0u8; 4096];
    let n = save(words, reals, &mut bytes);
    print_number(n);
    let mut others = [7u32; 8379];
    let mut floats = [7.0; 158];
    let read = load(&mut others, &mut floats, &bytes, n);
    print_counts(&others);
    let mut again = [0u8; 4096];
    save(&others, &floats, &mut again);
    same(&bytes, &again) & read
}

fn main() {
    let mut words = [0u32; 8379];
    let mut reals = [0.0; 158];
    let built = trial_stone(&ROOM, &mut words, &mut reals);
    let split = cut(&mut words, &mut reals);
    let first = night(&words, &reals);
    words[VERSION] = 2;
    let second = night(&words, &reals);
    if built & split & first & second {
        io::write_all(1, b"the same bytes\n");
    } else {
        io::write_all(1, b"other bytes\n");
    }
}
