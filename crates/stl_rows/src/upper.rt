// The body, its two regions and shells, the faces and the loops.
ghost use Rattle.std.specs.Prelude.{◌≡◌, ◌∷◌, ◌+◌, ◌≤◌, take};
ghost use Rattle.meaning.specs.Lists.{run};
ghost use Rattle.memory_layout.specs.Names.{BODIES, REGIONS, SHELLS, FACES, LOOPS};
ghost use Rattle.stl_rows.specs.Rows.{words_behind, body_row, region_row, shell_row, face_row, loop_row};
ghost use Rattle.stl_rows.specs.Facts.{Space};

use crate::append::append;
use memory_layout::names::{BODIES, FACES, LOOPS, REGIONS, SHELLS};

fn body_row(office: u32, region: u32) -> [u32; 5]
    requires { region ≤ 4096 }
    ensures { result ≡ body_row office region 0 }
{
    [3, office, 2, region, region + 1]
}

pub fn lay_body(room: &[usize; 10], words: &mut [u32], office: u32, region: u32)
    requires space { Space room.now words.old BODIES 1 }
    requires region_bound { region ≤ 4096 }
    ensures { words.new ≡ words_behind room.now BODIES (body_row office region) 1 words.old }
{
    let row = body_row(office, region);
    append(room, words, BODIES, &row);
}

fn region_row(body: u32, shell: u32, k: u32) -> [u32; 4]
    requires { (shell ≤ 4096) × (k ≤ 4096) }
    ensures { result ≡ region_row body shell k }
{
    [body, k, 1, shell + k]
}

// The void, then the solid.
pub fn lay_regions(room: &[usize; 10], words: &mut [u32], body: u32, shell: u32)
    requires space { Space room.now words.old REGIONS 2 }
    requires shell_bound { shell ≤ 4096 }
    ensures { words.new ≡ words_behind room.now REGIONS (region_row body shell) 2 words.old }
{
    for k in 0..2 {
        let row = region_row(body, shell, k);
        append(room, words, REGIONS, &row);
    }
}

// The front of a shell's words, up to the last of n faces.
fn shell_row(region: u32, face: u32, n: usize) -> [u32; 514]
    requires { (face ≤ 4096) × (n ≤ 512) }
    ensures { take (2 + n) result ≡ region ∷ n ∷ run face n }
{
    let mut row = [0; 514];
    row[0] = region;
    row[1] = n as u32;
    for k in 0..n {
        row[2 + k] = face + k as u32;
    }
    row
}

// The void's, then the solid's.
pub fn lay_shells(room: &[usize; 10], words: &mut [u32], region: u32, face: u32, n: usize)
    requires space { Space room.now words.old SHELLS 2 }
    requires region_bound { (region ≤ 4096) × (face ≤ 4096) × (n ≤ 512) }
    ensures { words.new ≡ words_behind room.now SHELLS (shell_row region face n) 2 words.old }
{
    let end = 2 + n;
    for k in 0..2 {
        let row = shell_row(region + k, face, n);
        append(room, words, SHELLS, &row[..end]);
    }
}

fn face_row(shell: u32, first: u32, k: usize) -> [u32; 9]
    requires { (shell ≤ 4096) × (first ≤ 4096) × (k ≤ 4096) }
    ensures { result ≡ face_row shell first k }
{
    [1, shell, 1, shell + 1, 0, 0, 0, 1, first + k as u32]
}

pub fn lay_faces(room: &[usize; 10], words: &mut [u32], shell: u32, first: u32, n: usize)
    requires space { Space room.now words.old FACES n }
    requires shell_bound { (shell ≤ 4096) × (first ≤ 4096) }
    ensures { words.new ≡ words_behind room.now FACES (face_row shell first) n words.old }
{
    for k in 0..n {
        let row = face_row(shell, first, k);
        append(room, words, FACES, &row);
    }
}

fn loop_row(face: u32, fin: u32, k: usize) -> [u32; 5]
    requires { (face ≤ 4096) × (fin ≤ 4096) × (k ≤ 4096) }
    ensures { result ≡ loop_row face fin k }
{
    let f = fin + 3 * k as u32;
    [face + k as u32, 3, f, f + 1, f + 2]
}

// Each from its first corner.
pub fn lay_loops(room: &[usize; 10], words: &mut [u32], face: u32, fin: u32, n: usize)
    requires space { Space room.now words.old LOOPS n }
    requires face_bound { (face ≤ 4096) × (fin ≤ 4096) }
    ensures { words.new ≡ words_behind room.now LOOPS (loop_row face fin) n words.old }
{
    for k in 0..n {
        let row = loop_row(face, fin, k);
        append(room, words, LOOPS, &row);
    }
}
