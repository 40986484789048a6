// For callers: `fin_vertices` of model.rs. `specs/Answers.antt` says what it answers. Inner: `readable_fin`.
#![tactic(auto)]

ghost use Rattle.std.specs.Prelude.{◌≡◌, List, Float};
ghost use Rattle.meaning.specs.Walks.{readable_fin};
ghost use Rattle.memory_layout.specs.Decode.{decode};
ghost use Rattle.memory_layout.specs.Fit.{Lists};
ghost use Rattle.walk_fin_ends.specs.Answers.{fin_vertices_number, fin_vertices_answer};
ghost use Rattle.walk_fin_ends.specs.Laws.{turned};

use memory_layout::names::{EDGES, FINS};
use memory_readable::readable;
use memory_reads::{edge_at, fin_at};
use memory_records::records::Sense;

// The ends of a fin's edge, in the fin's direction.
#[derive(Clone, Copy)]
pub struct Tips {
    pub start: Option<u32>,
    pub end: Option<u32>,
}

// Those, or the refusal's number.
#[derive(Clone, Copy)]
pub enum FinVertices {
    Is(Tips),
    Refused(u32),
}

// The fin and its edge exist.
fn readable_fin(room: &[usize; 10], words: &[u32], fin: usize) -> bool
    requires { Lists room.now words.now }
    ensures { (x : List Float) → result ≡ readable_fin (decode room.now words.now x) fin }
{
    if words[FINS] as usize <= fin {
        return false;
    }
    fin_at(room, words, fin).edge < words[EDGES]
}

// 9, then 2.
fn refusal(room: &[usize; 10], words: &[u32], reals: &[f64], fin: usize) -> u32
    ensures { result ≡ fin_vertices_number room.now words.now reals.now fin }
{
    if !readable(room, words, reals) {
        return 9;
    }
    if !readable_fin(room, words, fin) {
        return 2;
    }
    0
}

// An edge's ends, exchanged for a negative sense.
fn directed(sense: Sense, start: Option<u32>, end: Option<u32>) -> Tips
    ensures { result ≡ turned sense start end }
{
    match sense {
        Sense::Positive => Tips {
            start: start,
            end: end,
        },
        Sense::Negative => Tips {
            start: end,
            end: start,
        },
    }
}

// The start and end vertices of a fin, in the fin's direction.
pub fn fin_vertices(room: &[usize; 10], words: &[u32], reals: &[f64], fin: usize) -> FinVertices
    ensures { result ≡ fin_vertices_answer room.now words.now reals.now fin }
{
    let n = refusal(room, words, reals, fin);
    if n != 0 {
        return FinVertices::Refused(n);
    }
    let used = fin_at(room, words, fin);
    let edge = edge_at(room, words, reals, used.edge as usize);
    let sense = used.sense;
    let start = edge.start;
    let end = edge.end;
    FinVertices::Is(directed(sense, start, end))
}
