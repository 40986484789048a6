// Inner: the sides of a body's solid regions drawn one after the other, as the volume meets them (W-209): the walk that measures a drawing and the one that writes it.
#![tactic(auto)]

ghost use Rattle.std.specs.Prelude.{◌≡◌, true, ◌+◌, ◌<◌, ◌≤◌, ltb, length};
ghost use Rattle.meaning.specs.Lists.{all, joined};
ghost use Rattle.meaning.specs.Inquire.{sides_of, sides_refusal};
ghost use Rattle.memory_layout.specs.Names.{SHELLS};
ghost use Rattle.memory_layout.specs.Layout.{word};
ghost use Rattle.memory_layout.specs.Decode.{decode};
ghost use Rattle.memory_layout.specs.Fit.{Fit};
ghost use Rattle.inquire_regions.specs.Regions.{faces_whole, region_sides, region_whole};
ghost use Rattle.stl_fan.specs.Pens.{Drawn};

use inquire_regions::solid_shells;
use memory_layout::names::SHELL_FACES;
use memory_lists::list;
use stl_fan::{Pen, with_side};

// The faces that a shell lists; at most 512, of 1,022 triangles each.
fn with_shell(
    room: &[usize; 10],
    words: &[u32],
    reals: &[f64],
    shell: u32,
    before: Pen,
    bytes: &mut [u8],
) -> Pen
    requires fit { Fit room.now words.now reals.now }
    requires shell_bound { shell < word words.now SHELLS }
    requires shell_value { faces_whole room.now words.now shell ≡ true }
    requires shell_value_2 { sides_refusal (decode room.now words.now reals.now) (sides_of (decode room.now words.now reals.now) shell) ≡ 0 }
    requires count_bound { before.count ≤ 0x10000000 }
    ensures drawn { Drawn (decode room.now words.now reals.now) (sides_of (decode room.now words.now reals.now) shell) before result bytes.old bytes.new }
    ensures few { result.count ≤ before.count + 0x80000 }
{
    let faces = list(room, words, SHELL_FACES, shell as usize);
    let mut t = before;
    for face in faces {
        t = with_side(room, words, reals, shell, *face as usize, t, bytes);
    }
    t
}

// The shells, in order; at most 16.
fn with_shells(
    room: &[usize; 10],
    words: &[u32],
    reals: &[f64],
    shells: &[u32],
    before: Pen,
    bytes: &mut [u8],
) -> Pen
    requires fit { Fit room.now words.now reals.now }
    requires shells_value { all (λ s. ltb s (word words.now SHELLS)) shells.now ≡ true }
    requires shells_value_2 { all (faces_whole room.now words.now) shells.now ≡ true }
    requires shells_value_3 { sides_refusal (decode room.now words.now reals.now) (joined (sides_of (decode room.now words.now reals.now)) shells.now) ≡ 0 }
    requires shells_len_bound { (length shells.now ≤ 16) × (before.count ≤ 0x8000000) }
    ensures drawn { Drawn (decode room.now words.now reals.now) (joined (sides_of (decode room.now words.now reals.now)) shells.now) before result bytes.old bytes.new }
    ensures few { result.count ≤ before.count + 0x800000 }
{
    let mut t = before;
    for shell in shells {
        t = with_shell(room, words, reals, *shell, t, bytes);
    }
    t
}

// The regions, in order; at most 16.
pub fn draw_regions(
    room: &[usize; 10],
    words: &[u32],
    reals: &[f64],
    regions: &[u32],
    bytes: &mut [u8],
) -> Pen
    requires fit { Fit room.now words.now reals.now }
    requires regions_value { all (region_whole room.now words.now) regions.now ≡ true }
    requires regions_value_2 { sides_refusal (decode room.now words.now reals.now) (joined (region_sides (decode room.now words.now reals.now)) regions.now) ≡ 0 }
    requires regions_len_bound { length regions.now ≤ 16 }
    ensures drawn { Drawn (decode room.now words.now reals.now) (joined (region_sides (decode room.now words.now reals.now)) regions.now) (record { narrow = true; count = 0 }) result bytes.old bytes.new }
    ensures few { result.count ≤ 0x8000000 }
{
    let mut t = Pen {
        narrow: true,
        count: 0,
    };
    for region in regions {
        let shells = solid_shells(room, words, *region as usize);
        t = with_shells(room, words, reals, shells, t, bytes);
    }
    t
}
