// Inner: kinds, senses, marks, optional ids, tolerances and carriers as words and floats, as the fields of a record have them.
#![tactic(auto)]

ghost use Rattle.std.specs.Prelude.{◌≡◌};
ghost use Rattle.meaning.specs.Edits.{tolerance_ok};
ghost use Rattle.edit_tags.specs.Tags.{kind_tag, sense_tag, mark, ref_tag, ref_id, tolerance_tag, tolerance_float, carrier_tag};

use geom_carriers::Carrier;
use geom_lines_planes::tolerance::Tolerance;
use memory_records::records::{BodyKind, Sense};

pub fn kind_tag(kind: BodyKind) -> u32
    ensures { result ≡ kind_tag kind }
{
    match kind {
        BodyKind::Acorn => 0,
        BodyKind::Wire => 1,
        BodyKind::Sheet => 2,
        BodyKind::Solid => 3,
        BodyKind::General => 4,
    }
}

pub fn sense_tag(sense: Sense) -> u32
    ensures { result ≡ sense_tag sense }
{
    match sense {
        Sense::Positive => 0,
        Sense::Negative => 1,
    }
}

pub fn mark(b: bool) -> u32
    ensures { result ≡ mark b }
{
    if b {
        return 1;
    }
    0
}

// An optional id: its tag and the id, 0 where it is none.
pub fn ref_tag(id: Option<u32>) -> u32
    ensures { result ≡ ref_tag id }
{
    match id {
        None => 0,
        Some(_) => 1,
    }
}

pub fn ref_id(id: Option<u32>) -> u32
    ensures { result ≡ ref_id id }
{
    match id {
        None => 0,
        Some(i) => i,
    }
}

// An optional tolerance: its tag and the float, 0 where it is none; and whether it is one that a record may have.
pub fn tolerance_tag(tolerance: Tolerance) -> u32
    ensures { result ≡ tolerance_tag tolerance }
{
    match tolerance {
        Tolerance::Session => 0,
        Tolerance::Own(_) => 1,
    }
}

pub fn tolerance_float(tolerance: Tolerance) -> f64
    ensures { result ≡ tolerance_float tolerance }
{
    match tolerance {
        Tolerance::Session => 0.0,
        Tolerance::Own(t) => t,
    }
}

pub fn tolerance_ok(tolerance: Tolerance) -> bool
    ensures { result ≡ tolerance_ok tolerance }
{
    match tolerance {
        Tolerance::Session => true,
        Tolerance::Own(t) => memory_record_test::allowed::tolerance_ok(t),
    }
}

pub fn carrier_tag(carrier: Carrier) -> u32
    ensures { result ≡ carrier_tag carrier }
{
    match carrier {
        Carrier::Line(_) => 0,
        Carrier::Plane(_) => 1,
        Carrier::Other => 2,
    }
}
