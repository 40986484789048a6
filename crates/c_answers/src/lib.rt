// Inner: how the answers of boxes, volumes, splits and reports cross to C: the number, and the values in lent slots, which a refusal leaves as they were.
#![tactic(auto)]

ghost use Rattle.std.specs.Prelude.{◌≡◌, cond};
ghost use Rattle.station_answers.specs.declared.BoxFound.TheVariants as Boxes;
ghost use Rattle.station_answers.specs.declared.Volume.TheVariants as Volumes;
ghost use Rattle.station_answers.specs.declared.Split.TheVariants as Splits;
ghost use Rattle.station_answers.specs.declared.Checked.TheVariants as Checks;
ghost use Rattle.station_answers.specs.declared.Sawable.TheVariants as Saws;
ghost use Rattle.c_lent.specs.Lent.{Crosses, alone};
ghost use Rattle.c_answers.specs.Values.{corners_value, split_value, counts_value, mark_value};

use inquire_bbox::bbox::Aabb;
use station_answers::{BoxFound, Checked, Sawable, Split, Volume};

fn box_value(b: Aabb) -> [f64; 6]
    ensures { result ≡ corners_value b }
{
    [b.min.x, b.min.y, b.min.z, b.max.x, b.max.y, b.max.z]
}

pub fn put_box(answer: BoxFound, value: &mut [f64; 6]) -> u32
    ensures { Crosses Boxes.Is Boxes.Refused corners_value answer result value.old value.new }
{
    match answer {
        BoxFound::Is(b) => {
            *value = box_value(b);
            0
        }
        BoxFound::Refused(n) => n,
    }
}

pub fn put_volume(answer: Volume, value: &mut [f64; 1]) -> u32
    ensures { Crosses Volumes.Is Volumes.Refused alone answer result value.old value.new }
{
    match answer {
        Volume::Is(v) => {
            *value = [v];
            0
        }
        Volume::Refused(n) => n,
    }
}

pub fn put_split(answer: Split, value: &mut [u32; 3]) -> u32
    ensures { Crosses Splits.Is Splits.Refused split_value answer result value.old value.new }
{
    match answer {
        Split::Is(made) => {
            *value = [made.original_edge, made.new_edge, made.vertex];
            0
        }
        Split::Refused(n) => n,
    }
}

pub fn put_counts(answer: Checked, value: &mut [usize; 3]) -> u32
    ensures { Crosses Checks.Is Checks.Refused counts_value answer result value.old value.new }
{
    match answer {
        Checked::Is(counts) => {
            *value = [counts.faults, counts.kept, counts.unchecked];
            0
        }
        Checked::Refused(n) => n,
    }
}

fn mark(yes: bool) -> u32
    ensures { result ≡ cond yes 1 0 }
{
    if yes {
        return 1;
    }
    0
}

pub fn put_fit(answer: Sawable, value: &mut [u32; 1]) -> u32
    ensures { Crosses Saws.Is Saws.Refused mark_value answer result value.old value.new }
{
    match answer {
        Sawable::Is(fit) => {
            *value = [mark(fit)];
            0
        }
        Sawable::Refused(n) => n,
    }
}
