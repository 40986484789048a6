// The fins, the edges and the vertices, of a mesh in flat lists.
ghost use Rattle.std.specs.Prelude.{◌≡◌, cond, ◌++◌, ◌∷◌, ◌+◌, ◌*◌, ◌≤◌, leb, length, take};
ghost use Rattle.memory_layout.specs.Names.{FINS, EDGES, VERTICES};
ghost use Rattle.stl_body.specs.Read.{step, fins_on};
ghost use Rattle.stl_rows.specs.Rows.{appended_words, words_behind, fin_words, vertex_row};
ghost use Rattle.stl_rows.specs.Facts.{Space, Below, Eight, corner_row, flat_fin_row, flat_edge_row};

use memory_layout::names::{EDGES, FINS, VERTICES};
use stl_rows::append::append;

// The tag of a fin's sense: its edge runs from the lower vertex to the higher.
fn sense(from: u32, to: u32) -> u32
    ensures { result ≡ cond (leb from to) 0 1 }
{
    if from <= to {
        return 0;
    }
    1
}

fn append_fin(room: &[usize; 10], words: &mut [u32], owner: u32, edge: u32, from: u32, to: u32)
    requires { Space room.now words.old FINS 1 }
    ensures { words.new ≡ appended_words room.now FINS (fin_words owner edge (step from to)) words.old }
{
    let row = [owner, edge, sense(from, to), 0];
    append(room, words, FINS, &row);
}

// The fins of one triangle, whose corners and edges stand from a place on.
fn lay_triangle(
    room: &[usize; 10],
    words: &mut [u32],
    owner: u32,
    edge: u32,
    numbers: &[u32],
    edges: &[u32],
    at: usize,
)
    requires space { Space room.now words.old FINS 3 }
    requires edge_bound { (edge ≤ 4096) × (at ≤ 4096) × (at + 3 ≤ length numbers.now) }
    requires below { Below edges.now (at + 3) 4096 }
    ensures { words.new ≡ words_behind room.now FINS (corner_row owner edge numbers.now edges.now at) 3 words.old }
{
    let a = numbers[at];
    let b = numbers[at + 1];
    let c = numbers[at + 2];
    append_fin(room, words, owner, edge + edges[at], a, b);
    append_fin(room, words, owner, edge + edges[at + 1], b, c);
    append_fin(room, words, owner, edge + edges[at + 2], c, a);
}

pub fn lay_fins(
    room: &[usize; 10],
    words: &mut [u32],
    first: u32,
    edge: u32,
    n: usize,
    numbers: &[u32],
    edges: &[u32],
)
    requires space { Space room.now words.old FINS (3 * n) }
    requires first_bound { (first ≤ 4096) × (edge ≤ 4096) × (3 * n ≤ length numbers.now) }
    requires below { Below edges.now (3 * n) 4096 }
    ensures { words.new ≡ words_behind room.now FINS (flat_fin_row first edge n numbers.now edges.now) (3 * n) words.old }
{
    for j in 0..n {
        lay_triangle(room, words, first + j as u32, edge, numbers, edges, 3 * j);
    }
}

// The fins of edge k behind the first 8 words of its row, and how many they are.
fn fins_on(k: u32, fin: u32, edges: &[u32], m: usize, row: &mut [u32; 16]) -> usize
    requires fin_bound { (fin ≤ 4096) × (m ≤ 4096) × (m ≤ length edges.now) × (length row.old ≡ 16) }
    requires edges_len_bound { length (fins_on k fin (take m edges.now)) ≤ 8 }
    ensures value { result ≡ length (fins_on k fin (take m edges.now)) }
    ensures row_after { take (8 + result) row.new ≡ take 8 row.old ++ fins_on k fin (take m edges.now) }
    ensures row_len { length row.new ≡ 16 }
{
    let mut c = 0;
    for (j, edge) in edges[..m].iter().enumerate() {
        if *edge == k {
            row[8 + c] = fin + j as u32;
            c += 1;
        }
    }
    c
}

fn lay_edge(
    room: &[usize; 10],
    words: &mut [u32],
    start: u32,
    end: u32,
    k: u32,
    fin: u32,
    edges: &[u32],
    m: usize,
)
    requires space { Space room.now words.old EDGES 1 }
    requires fin_bound { (fin ≤ 4096) × (m ≤ 4096) × (m ≤ length edges.now) }
    requires edges_len_bound { length (fins_on k fin (take m edges.now)) ≤ 8 }
    ensures { words.new ≡ appended_words room.now EDGES (1 ∷ start ∷ 1 ∷ end ∷ 0 ∷ 0 ∷ 0 ∷ length (fins_on k fin (take m edges.now)) ∷ fins_on k fin (take m edges.now)) words.old }
{
    let mut row = [1, start, 1, end, 0, 0, 0, 0, 0, 0, 0, 0, 0, 0, 0, 0];
    let c = fins_on(k, fin, edges, m, &mut row);
    row[7] = c as u32;
    let last = 8 + c;
    append(room, words, EDGES, &row[..last]);
}

pub fn lay_edges(
    room: &[usize; 10],
    words: &mut [u32],
    vertex: u32,
    fin: u32,
    n: usize,
    edges: &[u32],
    ends: &[u32],
    e: usize,
)
    requires space { Space room.now words.old EDGES e }
    requires vertex_bound { (vertex ≤ 4096) × (fin ≤ 4096) × (3 * n ≤ 4096) × (3 * n ≤ length edges.now) }
    requires below { Below ends.now (2 * e) 4096 }
    requires eight { Eight edges.now n e }
    ensures { words.new ≡ words_behind room.now EDGES (flat_edge_row vertex fin n edges.now ends.now) e words.old }
{
    for k in 0..e {
        let start = vertex + ends[2 * k];
        let end = vertex + ends[2 * k + 1];
        lay_edge(room, words, start, end, k as u32, fin, edges, 3 * n);
    }
}

pub fn lay_vertices(room: &[usize; 10], words: &mut [u32], v: usize)
    requires { Space room.now words.old VERTICES v }
    ensures { words.new ≡ words_behind room.now VERTICES vertex_row v words.old }
{
    let row: [u32; 1] = [0];
    for _ in 0..v {
        append(room, words, VERTICES, &row);
    }
}
