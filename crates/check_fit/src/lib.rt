// Inner: what fit to saw asks of a body beside its report (W-203). It is solid, a face stands in a solid region, and every shell that a face of the
// body names is one of the body's shells and lists the face.
#![tactic(auto)]

ghost use Rattle.std.specs.Prelude.{◌≡◌, true, ◌&&◌, List, ◌<◌, ltb, Float};
ghost use Rattle.meaning.specs.Lists.{all, any};
ghost use Rattle.meaning.specs.Faults.{whole_solid};
ghost use Rattle.memory_layout.specs.Names.{SHELLS, FACES, REGION_SHELLS};
ghost use Rattle.memory_layout.specs.Layout.{word};
ghost use Rattle.memory_layout.specs.Decode.{decode};
ghost use Rattle.memory_layout.specs.Fit.{Lists};
ghost use Rattle.walk_sources.specs.Sources.{Sources, followed};
ghost use Rattle.walk_visits.specs.Visits.{ids_of};
ghost use Rattle.walk_paths.specs.Paths.{Faced};
ghost use Rattle.check_ends.specs.Ends.{ref_of};
ghost use Rattle.check_fit.specs.Whole.{faced_in, solid_in, own_in, side_in, owns_in};

use memory_layout::layout::words_of;
use memory_layout::names::{
    AT_BODY_KIND, AT_REGION_SOLID, BODIES, BODY_REGIONS, REGION_SHELLS, REGIONS, SHELL_FACES,
    SHELLS,
};
use memory_lists::list;
use memory_reads::face_at;
use walk_marks::has;
use walk_paths::face_path;
use walk_sources::part;

// Does one of the shells list a face?
fn any_face(room: &[usize; 10], words: &[u32], shells: &[u32]) -> bool
    requires lists { Lists room.now words.now }
    requires shells_value { all (λ s. ltb s (word words.now SHELLS)) shells.now ≡ true }
    ensures { result ≡ any (faced_in room.now words.now) shells.now }
{
    let mut found = false;
    for shell in shells {
        let faces = list(room, words, SHELL_FACES, *shell as usize);
        found = found | (faces.len() != 0);
    }
    found
}

// Is the region solid, and does one of its shells list a face?
fn solid_region(room: &[usize; 10], words: &[u32], region: usize) -> bool
    requires lists { Lists room.now words.now }
    requires region_value { followed room.now words.now REGION_SHELLS region ≡ true }
    ensures { result ≡ solid_in room.now words.now region }
{
    let w = words_of(room, words, REGIONS, region);
    let solid = w[AT_REGION_SOLID] != 0;
    let faced = any_face(room, words, list(room, words, REGION_SHELLS, region));
    solid & faced
}

// Is one of the regions so?
fn solid_face(room: &[usize; 10], words: &[u32], regions: &[u32]) -> bool
    requires lists { Lists room.now words.now }
    requires regions_value { all (followed room.now words.now REGION_SHELLS) regions.now ≡ true }
    ensures { result ≡ any (solid_in room.now words.now) regions.now }
{
    let mut found = false;
    for region in regions {
        found = found | solid_region(room, words, *region as usize);
    }
    found
}

// Does the shell s exist, stand in the path and list the face f?
fn own_shell(room: &[usize; 10], words: &[u32], path: &[u32], f: u32, s: u32) -> bool
    requires { Lists room.now words.now }
    ensures { result ≡ own_in room.now words.now path.now f s }
{
    if words[SHELLS] <= s {
        return false;
    }
    let among = has(path, 8 * s + 2);
    let lists = has(list(room, words, SHELL_FACES, s as usize), f);
    among & lists
}

// So does the shell on a side of the face f, if there is one.
fn own_side(room: &[usize; 10], words: &[u32], path: &[u32], f: u32, side: Option<u32>) -> bool
    requires { Lists room.now words.now }
    ensures { result ≡ side_in room.now words.now path.now f (ref_of side) }
{
    match side {
        None => true,
        Some(s) => own_shell(room, words, path, f, s),
    }
}

// Both sides of the face f.
fn own_sides(room: &[usize; 10], words: &[u32], path: &[u32], f: u32) -> bool
    requires lists { Lists room.now words.now }
    requires f_bound { f < word words.now FACES }
    ensures { result ≡ owns_in room.now words.now path.now f }
{
    let face = face_at(room, words, f as usize);
    let front = face.front;
    let back = face.back;
    let a = own_side(room, words, path, f, front);
    let b = own_side(room, words, path, f, back);
    a & b
}

// Those of all the faces.
fn own_faces(room: &[usize; 10], words: &[u32], path: &[u32], ids: &[u32]) -> bool
    requires lists { Lists room.now words.now }
    requires ids_value { all (λ f. ltb f (word words.now FACES)) ids.now ≡ true }
    ensures { result ≡ all (owns_in room.now words.now path.now) ids.now }
{
    let mut ok = true;
    for id in ids {
        ok = ok & own_sides(room, words, path, *id);
    }
    ok
}

// Those of all that the path's sources list.
fn own_path(room: &[usize; 10], words: &[u32], path: &[u32]) -> bool
    requires lists { Lists room.now words.now }
    requires sources { Sources room.now words.now path.now }
    requires path_value { all (λ f. ltb f (word words.now FACES)) (ids_of room.now words.now path.now) ≡ true }
    ensures { result ≡ all (owns_in room.now words.now path.now) (ids_of room.now words.now path.now) }
{
    let mut buf = [0u32; 1024];
    let mut ok = true;
    for source in path {
        let n = part(room, words, *source, &mut buf);
        ok = ok & own_faces(room, words, path, &buf[..n]);
    }
    ok
}

// All that fit to saw asks of a body beside its report.
fn whole_solid(room: &[usize; 10], words: &[u32], body: usize) -> bool
    requires lists { Lists room.now words.now }
    requires faced { Faced room.now words.now body }
    ensures { (x : List Float) → result ≡ whole_solid (decode room.now words.now x) body }
{
    let w = words_of(room, words, BODIES, body);
    let solid = w[AT_BODY_KIND] == 3;
    let faced = solid_face(room, words, list(room, words, BODY_REGIONS, body));
    let mut path = [0u32; 256];
    let n = face_path(room, words, body, &mut path);
    let owned = own_path(room, words, &path[..n]);
    solid & faced & owned
}

// The verdict, by whether the report is valid: it is fit where all of that holds besides.
pub fn fit_if(room: &[usize; 10], words: &[u32], body: usize, valid: bool) -> bool
    requires { valid ≡ true → Lists room.now words.now × Faced room.now words.now body }
    ensures { (x : List Float) → result ≡ (valid && whole_solid (decode room.now words.now x) body) }
{
    if !valid {
        return false;
    }
    whole_solid(room, words, body)
}
