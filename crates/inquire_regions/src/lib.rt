// Inner: the sides of a body's solid regions, met one after the other as they are listed (the loops of `body_volume`, inquire.rs): one path for the volume in floats and,
// where it is `whole`, in whole numbers (W-201).
#![tactic(auto)]

ghost use Rattle.std.specs.Prelude.{◌≡◌, Bool, true, List, [], ◌∷◌, ◌++◌, ◌<◌, ltb};
ghost use Rattle.meaning.specs.Lists.{all, joined};
ghost use Rattle.meaning.specs.Model.{Model};
ghost use Rattle.meaning.specs.Inquire.{Side, sides_of};
ghost use Rattle.memory_layout.specs.Names.{REGIONS, SHELLS};
ghost use Rattle.memory_layout.specs.Layout.{word};
ghost use Rattle.memory_layout.specs.Decode.{decode};
ghost use Rattle.memory_layout.specs.Fit.{Fit, Lists};
ghost use Rattle.inquire_sides.specs.Sides.{face_whole};
ghost use Rattle.inquire_regions.specs.Regions.{tally_of, faces_whole, solid_shells, region_sides, region_whole};

use inquire_sides::{side_refusal, side_volume};
use inquire_weight::{Weight, no_weight, with_weight};
use memory_layout::layout::words_of;
use memory_layout::names::{AT_REGION_SOLID, REGION_SHELLS, REGIONS, SHELL_FACES};
use memory_lists::list;
use split_segment::refusals::then;

// What is known of sides that were met: the first refusal, whether there are none, and the sum of their volumes or their weight, nothing where one is refused.
#[derive(Clone, Copy)]
pub struct Tally {
    pub refused: u32,
    pub empty: bool,
    pub volume: f64,
    pub weight: Weight,
}

// Of no side.
fn none() -> Tally
    ensures { (whole : Bool) (m : Model) → result ≡ tally_of whole m [] }
{
    Tally {
        refused: 0,
        empty: true,
        volume: 0.0,
        weight: no_weight(),
    }
}

// Of one side more.
fn with_side(
    room: &[usize; 10],
    words: &[u32],
    reals: &[f64],
    whole: bool,
    shell: u32,
    face: usize,
    t: Tally,
) -> Tally
    requires fit { Fit room.now words.now reals.now }
    requires face_value { face_whole room.now words.now face ≡ true }
    ensures { (l : List Side) → t ≡ tally_of whole (decode room.now words.now reals.now) l → result ≡ tally_of whole (decode room.now words.now reals.now) (l ++ (record { shell = shell; face = face } ∷ [])) }
{
    let n = then(t.refused, side_refusal(room, words, shell, face));
    if n != 0 {
        return Tally {
            refused: n,
            empty: false,
            volume: 0.0,
            weight: no_weight(),
        };
    }
    let weight = t.weight;
    if whole {
        return Tally {
            refused: 0,
            empty: false,
            volume: 0.0,
            weight: with_weight(room, words, reals, shell, face, weight),
        };
    }
    Tally {
        refused: 0,
        empty: false,
        volume: t.volume + side_volume(room, words, reals, shell, face),
        weight,
    }
}

// Of the faces that a shell lists.
fn with_shell(
    room: &[usize; 10],
    words: &[u32],
    reals: &[f64],
    whole: bool,
    shell: u32,
    before: Tally,
) -> Tally
    requires fit { Fit room.now words.now reals.now }
    requires shell_bound { shell < word words.now SHELLS }
    requires shell_value { faces_whole room.now words.now shell ≡ true }
    ensures { (l : List Side) → before ≡ tally_of whole (decode room.now words.now reals.now) l → result ≡ tally_of whole (decode room.now words.now reals.now) (l ++ sides_of (decode room.now words.now reals.now) shell) }
{
    let faces = list(room, words, SHELL_FACES, shell as usize);
    let mut t = before;
    for face in faces {
        t = with_side(room, words, reals, whole, shell, *face as usize, t);
    }
    t
}

// Of the shells, in order.
fn with_shells(
    room: &[usize; 10],
    words: &[u32],
    reals: &[f64],
    whole: bool,
    shells: &[u32],
    before: Tally,
) -> Tally
    requires fit { Fit room.now words.now reals.now }
    requires shells_value { all (λ s. ltb s (word words.now SHELLS)) shells.now ≡ true }
    requires shells_value_2 { all (faces_whole room.now words.now) shells.now ≡ true }
    ensures { (l : List Side) → before ≡ tally_of whole (decode room.now words.now reals.now) l → result ≡ tally_of whole (decode room.now words.now reals.now) (l ++ joined (sides_of (decode room.now words.now reals.now)) shells.now) }
{
    let mut t = before;
    for shell in shells {
        t = with_shell(room, words, reals, whole, *shell, t);
    }
    t
}

// The shells of a region that is solid, of another none.
pub fn solid_shells<'a>(room: &[usize; 10], words: &'a [u32], region: usize) -> &'a [u32]
    requires lists { Lists room.now words.now }
    requires region_bound { region < word words.now REGIONS }
    ensures { result.now ≡ solid_shells room.now words.now region }
{
    let shells = list(room, words, REGION_SHELLS, region);
    let w = words_of(room, words, REGIONS, region);
    if w[AT_REGION_SOLID] == 0 {
        return &shells[..0];
    }
    shells
}

// Of the regions, in order.
pub fn regions_tally(
    room: &[usize; 10],
    words: &[u32],
    reals: &[f64],
    whole: bool,
    regions: &[u32],
) -> Tally
    requires fit { Fit room.now words.now reals.now }
    requires regions_value { all (region_whole room.now words.now) regions.now ≡ true }
    ensures { result ≡ tally_of whole (decode room.now words.now reals.now) (joined (region_sides (decode room.now words.now reals.now)) regions.now) }
{
    let mut t = none();
    for region in regions {
        let shells = solid_shells(room, words, *region as usize);
        t = with_shells(room, words, reals, whole, shells, t);
    }
    t
}
