// The list at a place of the words, its length, then its entries: an entry put, appended or struck.
ghost use Rattle.std.specs.Prelude.{◌≡◌, ◌+◌, ◌<◌, length, set};
ghost use Rattle.meaning.specs.Edits.{appended};
ghost use Rattle.memory_layout.specs.Layout.{word};
ghost use Rattle.memory_layout.specs.Decode.{list_at};
ghost use Rattle.memory_layout.specs.Fit.{Held};
ghost use Rattle.edit_lists.specs.Place.{struck, with_list};

pub fn put_at(w: &mut [u32], at: usize, place: usize, id: u32)
    requires { Held w.old at × (place < word w.old at) }
    ensures { w.new ≡ with_list at (set (list_at w.old at) place id) w.old }
{
    w[at + 1 + place] = id;
}

pub fn append_at(w: &mut [u32], at: usize, id: u32)
    requires { Held w.old at × (at + 1 + word w.old at < length w.old) × (word w.old at < 1024) }
    ensures { w.new ≡ with_list at (appended (list_at w.old at) id) w.old }
{
    let n = w[at];
    w[at + 1 + n as usize] = id;
    w[at] = n + 1;
}

// The entries behind the place move one down.
pub fn strike_at(w: &mut [u32], at: usize, place: usize)
    requires { Held w.old at × (place < word w.old at) }
    ensures { w.new ≡ with_list at (struck (list_at w.old at) place) w.old }
{
    let n = w[at];
    let from = at + 1 + place;
    let behind = n as usize - 1 - place;
    for m in 0..behind {
        let v = w[from + 1 + m];
        w[from + m] = v;
    }
    w[at] = n - 1;
}
