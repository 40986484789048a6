// Inner: what crosses between the calls and a C program. specs/Crossing.antt says as which numbers a value crosses, and specs/Given.antt which
// fields the numbers name that are handed over. Here the answers that are no record; `values` has the records as numbers, `tags` the fields that numbers name.
#![tactic(auto)]

pub mod tags;
pub mod values;

ghost use Rattle.std.specs.Prelude.{◌≡◌, [], ◌∷◌};
ghost use Rattle.edit_tags.specs.Tags.{mark, ref_tag, ref_id};
ghost use Rattle.edit_core.specs.declared.Inserted.TheVariants as Inserts;
ghost use Rattle.c_lent.specs.Lent.{Crosses, alone};
ghost use Rattle.c_values.specs.Crossing.{tips_value};

use edit_core::Inserted;
use walk_fin_ends::Tips;

fn ref_value(id: Option<u32>) -> [u32; 2]
    ensures { result ≡ ref_tag id ∷ ref_id id ∷ [] }
{
    match id {
        None => [0, 0],
        Some(i) => [1, i],
    }
}

pub fn tips_value(t: Tips) -> [u32; 4]
    ensures { result ≡ tips_value t }
{
    let start = t.start;
    let end = t.end;
    let a = ref_value(start);
    let b = ref_value(end);
    [a[0], a[1], b[0], b[1]]
}

// A yes or no.
pub fn mark_value(yes: bool) -> [u32; 1]
    ensures { result ≡ mark yes ∷ [] }
{
    if yes {
        return [1];
    }
    [0]
}

// The id of a new record into its slot.
pub fn put_id(answer: Inserted, id: &mut [u32; 1]) -> u32
    ensures { Crosses Inserts.At Inserts.Refused alone answer result id.old id.new }
{
    match answer {
        Inserted::At(i) => {
            *id = [i];
            0
        }
        Inserted::Refused(n) => n,
    }
}
