// The numbers and floats of a record, by its table: `fields.rt` has those of each.
ghost use Rattle.std.specs.Prelude.{◌≡◌, ◌<◌, ◌≤◌, length};
ghost use Rattle.image_record_test.specs.Parts.{fixed_size, fields_good};

use crate::fields::{carrier_good, edge_good, fin_good, marked_good, vertex_good};
use image_bytes::word_in;
use memory_layout::names::{BODIES, EDGES, FACES, FINS, REGIONS, VERTICES};

// Of the first five tables.
fn upper_good(k: usize, p: &[u8]) -> bool
    requires k_bound { k < 5 }
    requires k_in_bounds { fixed_size k ≤ length p.now }
    ensures { result ≡ fields_good k p.now }
{
    match k {
        BODIES => word_in(p, 2) <= 4,
        REGIONS => word_in(p, 6) <= 1,
        FACES => marked_good(p),
        _ => true,
    }
}

pub fn fields_good(k: usize, p: &[u8]) -> bool
    requires k_bound { k < 10 }
    requires k_in_bounds { fixed_size k ≤ length p.now }
    ensures { result ≡ fields_good k p.now }
{
    if k < 5 {
        return upper_good(k, p);
    }
    match k {
        FINS => fin_good(p),
        EDGES => edge_good(p),
        VERTICES => vertex_good(p),
        _ => carrier_good(p),
    }
}
