// Inner: what is found of a body (`body` of gensolid-check's lib.rs).
#![tactic(auto)]

ghost use Rattle.std.specs.Prelude.{◌≡◌, true, ◌≤◌, ◌<◌, length, replicate};
ghost use Rattle.meaning.specs.Faults.{manifold_edges, findings};
ghost use Rattle.memory_layout.specs.Names.{BODIES};
ghost use Rattle.memory_layout.specs.Layout.{word};
ghost use Rattle.memory_layout.specs.Decode.{decode};
ghost use Rattle.memory_layout.specs.Readable.{readable};
ghost use Rattle.check_reasons.specs.Log.{Noted, Enough};
ghost use Rattle.check_loop.specs.Loop.{options};
ghost use Rattle.check_findings.specs.Findings.{solid_kind};

use check_manifold::manifold_edges;
use check_reasons::{Tally, done};
use check_regions::{all_regions, region_layout};
use memory_layout::names::BODY_REGIONS;
use memory_lists::list;
use memory_reads::body_at;
use memory_records::records::BodyKind;
use walk_refusals::edges_refusal;

fn is_solid(kind: BodyKind) -> bool
    ensures { result ≡ solid_kind kind }
{
    match kind {
        BodyKind::Acorn => false,
        BodyKind::Wire => false,
        BodyKind::Sheet => false,
        BodyKind::Solid => true,
        BodyKind::General => false,
    }
}

// The manifold edges of a solid whose edges can be walked. The marks come all zero and are left so.
fn solid_edges(
    room: &[usize; 10],
    words: &[u32],
    reals: &[f64],
    nums: &mut [u32],
    t: Tally,
    body: usize,
    faces: &mut [u8],
    edges: &mut [u8],
) -> Tally
    requires reals_value { readable room.now words.now reals.now ≡ true }
    requires body_bound { body < word words.now BODIES }
    requires faces_value { faces.old ≡ replicate (length faces.old) 0 }
    requires edges_value { edges.old ≡ replicate (length edges.old) 0 }
    requires enough { Enough t (manifold_edges (decode room.now words.now reals.now) body) }
    ensures noted { Noted (manifold_edges (decode room.now words.now reals.now) body) nums.old t nums.new result }
    ensures faces_after { faces.new ≡ replicate (length faces.old) 0 }
    ensures edges_after { edges.new ≡ replicate (length edges.old) 0 }
{
    if done(t) {
        return t;
    }
    let it = body_at(room, words, body);
    let kind = it.kind;
    if !is_solid(kind) {
        return t;
    }
    let refused = edges_refusal(room, words, reals, true, body, faces);
    if refused != 0 {
        return t;
    }
    manifold_edges(room, words, reals, nums, t, body, faces, edges)
}

// The region layout, the regions, then the manifold edges of a solid.
pub fn body_findings(
    room: &[usize; 10],
    words: &[u32],
    reals: &[f64],
    nums: &mut [u32],
    t: Tally,
    geometry: bool,
    n: u32,
    body: usize,
    faces: &mut [u8],
    edges: &mut [u8],
) -> Tally
    requires reals_value { readable room.now words.now reals.now ≡ true }
    requires n_bound { (n ≤ 255) × (body < word words.now BODIES) }
    requires faces_value { faces.old ≡ replicate (length faces.old) 0 }
    requires edges_value { edges.old ≡ replicate (length edges.old) 0 }
    requires enough { Enough t (findings (decode room.now words.now reals.now) (options geometry n) body) }
    ensures noted { Noted (findings (decode room.now words.now reals.now) (options geometry n) body) nums.old t nums.new result }
    ensures faces_after { faces.new ≡ replicate (length faces.old) 0 }
    ensures edges_after { edges.new ≡ replicate (length edges.old) 0 }
{
    let b = body as u32;
    let regions = list(room, words, BODY_REGIONS, body);
    let laid = region_layout(room, words, reals, nums, t, b, regions);
    let told = all_regions(room, words, reals, nums, laid, geometry, n, b, regions);
    solid_edges(room, words, reals, nums, told, body, faces, edges)
}
