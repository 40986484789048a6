// Inner: the whole body that is built of binary STL, laid over the lent memory (W-210). `read_words` and `read_reals` of `stl_rows` say what it leaves. Other crates call `lay`.
#![tactic(auto)]

ghost use Rattle.std.specs.Prelude.{◌≡◌, ◌≤◌};
ghost use Rattle.stl_body.specs.Read.{Mesh};
ghost use Rattle.stl_rows.specs.Rows.{read_words, read_reals};
ghost use Rattle.stl_rows.specs.Facts.{Upper, Lower, Ready, Flattened, upper_words, lower_words};

use memory_layout::names::{BODIES, EDGES, FACES, FINS, LOOPS, REGIONS, SHELLS, VERTICES};
use stl_mesh_rows::floats::{lay_points, lay_tolerances};
use stl_mesh_rows::lower::{lay_edges, lay_fins, lay_vertices};
use stl_rows::upper::{lay_body, lay_faces, lay_loops, lay_regions, lay_shells};

// The tables that the number of triangles settles.
fn lay_upper(room: &[usize; 10], words: &mut [u32], office: u32, n: usize)
    requires { Upper room.now words.old n }
    ensures { words.new ≡ upper_words room.now words.old office n }
{
    let body = words[BODIES];
    let region = words[REGIONS];
    let shell = words[SHELLS];
    let face = words[FACES];
    let first = words[LOOPS];
    let fin = words[FINS];
    lay_body(room, words, office, region);
    lay_regions(room, words, body, shell);
    lay_shells(room, words, region, face, n);
    lay_faces(room, words, shell, first, n);
    lay_loops(room, words, face, fin, n);
}

// The tables that the lists settle; the first of the new loops is handed over, since the loops are laid by now.
fn lay_lower(
    room: &[usize; 10],
    words: &mut [u32],
    first: u32,
    n: usize,
    numbers: &[u32],
    edges: &[u32],
    ends: &[u32],
    e: usize,
    v: usize,
)
    requires lower { Lower room.now words.old n v e numbers.now edges.now ends.now }
    requires first_bound { first ≤ 4096 }
    ensures { words.new ≡ lower_words room.now words.old first n numbers.now edges.now ends.now e v }
{
    let fin = words[FINS];
    let edge = words[EDGES];
    let vertex = words[VERTICES];
    lay_fins(room, words, first, edge, n, numbers, edges);
    lay_edges(room, words, vertex, fin, n, edges, ends, e);
    lay_vertices(room, words, v);
}

// The records of a mesh of n triangles, v vertices and e edges, behind those that are there: whatever mesh the lists hold, it is the one that is laid.
pub fn lay(
    room: &[usize; 10],
    words: &mut [u32],
    reals: &mut [f64],
    office: u32,
    n: usize,
    numbers: &[u32],
    points: &[f64],
    v: usize,
    edges: &[u32],
    ends: &[u32],
    e: usize,
)
    requires { Ready room.now words.old reals.old n v e numbers.now points.now edges.now ends.now }
    ensures tables { (t : Mesh) → Flattened t n v e numbers.now points.now edges.now ends.now → words.new ≡ read_words room.now words.old office t }
    ensures floats { (t : Mesh) → Flattened t n v e numbers.now points.now edges.now ends.now → reals.new ≡ read_reals room.now words.old reals.old t }
{
    let owner = words[LOOPS];
    let edge = words[EDGES] as usize;
    let vertex = words[VERTICES] as usize;
    lay_upper(room, words, office, n);
    lay_lower(room, words, owner, n, numbers, edges, ends, e, v);
    lay_tolerances(room, reals, edge, e);
    lay_points(room, reals, vertex, points, v);
}
