// Program: 01's `trialstone`. Splits edge A of the trial stone at 0.25 and prints, before and after: faces, edges, vertices, fins, faults
// with geometry off.
#![tactic(auto)]

mod census;

use crate::census::{edges, faces, faults, fins, vertices};
use split_edge::split_line_edge;
use station_answers::Split;
use trial_inserts::{OFFICE, ROOM, trial_stone};

fn line(words: &[u32; 8379], reals: &[f64; 158]) {
    let w = &words[..];
    let x = &reals[..];
    io::print_decimal(1, faces(w, x));
    io::write_all(1, b" ");
    io::print_decimal(1, edges(w, x));
    io::write_all(1, b" ");
    io::print_decimal(1, vertices(w, x));
    io::write_all(1, b" ");
    io::print_decimal(1, fins(w, x));
    io::write_all(1, b" ");
    io::print_decimal(1, faults(w, x));
    io::write_all(1, b"\n");
}

// Whether A was split at 0.25.
fn cut(words: &mut [u32; 8379], reals: &mut [f64; 158]) -> bool {
    match split_line_edge(&ROOM, &mut words[..], &mut reals[..], OFFICE, 0, 0.25) {
        Split::Is(_) => true,
        Split::Refused(_) => false,
    }
}

fn main() {
    let mut words = [0u32; 8379];
    let mut reals = [0.0; 158];
    let built = trial_stone(&ROOM, &mut words, &mut reals);
    line(&words, &reals);
    let split = cut(&mut words, &mut reals);
    line(&words, &reals);
    if !(built & split) {
        io::write_all(1, b"refused\n");
    }
}
