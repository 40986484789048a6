// Inner: lent seen marks, and lists of ids in lent slices, what the walks do with one of them (HashSet and `push_unique` of model.rs).
//
// The family walk_: the faces, edges and vertices of a body, and the ends of a fin. Call walk_fin_ends; the walks are asked by an office (office_walks). Read walk_marks,
// walk_sources, walk_visits, walk_paths, of which a walk is made; walk_answers says what is given, walk_refusals what is refused.
#![tactic(auto)]

ghost use Rattle.std.specs.Prelude.{◌≡◌, ◌+◌, ◌≤◌, ltb, length, set, replicate};
ghost use Rattle.meaning.specs.Lists.{all, member};
ghost use Rattle.walk_marks.specs.Marks.{puts};

// Sets every mark to 0.
pub fn clear(marks: &mut [u8])
    ensures { marks.new ≡ replicate (length marks.old) 0 }
{
    marks.fill(0);
}

// Marks x, where the marks reach it.
pub fn mark(marks: &mut [u8], x: u32)
    ensures { marks.new ≡ set marks.old x 1 }
{
    let i = x as usize;
    if i < marks.len() {
        marks[i] = 1;
    }
}

// Is x one of the ids?
pub fn has(ids: &[u32], x: u32) -> bool
    ensures { result ≡ member x ids.now }
{
    let mut found = false;
    for id in ids {
        found = found | (x == *id);
    }
    found
}

// Is each of the ids below `used`?
pub fn all_below(ids: &[u32], used: u32) -> bool
    ensures { result ≡ all (λ x. ltb x used) ids.now }
{
    let mut ok = true;
    for id in ids {
        ok = ok & (*id < used);
    }
    ok
}

// Puts x at a place of the list, if it has that place.
pub fn put(out: &mut [u32], at: usize, x: u32)
    ensures { out.new ≡ set out.old at x }
{
    if at < out.len() {
        out[at] = x;
    }
}

// Puts the ids into the list from a place on, as far as the list goes.
pub fn put_all(out: &mut [u32], at: usize, ids: &[u32])
    requires { at + length ids.now ≤ 4294967296 }
    ensures { out.new ≡ puts out.old at ids.now }
{
    for (k, id) in ids.iter().enumerate() {
        put(out, at + k, *id);
    }
}
