// Where the records lie. All arithmetic on the layout is here.
ghost use Rattle.std.specs.Prelude.{◌≡◌, ℕ, ◌<◌, ◌≤◌, List, length};
ghost use Rattle.memory_layout.specs.Layout.{word_strides, real_strides, word, base, record_at, word_at, real_at, words_needed, reals_needed, words_of, reals_of};
ghost use Rattle.memory_layout.specs.Names.{BODIES};
ghost use Rattle.memory_layout.specs.Fit.{Small, Strides, Inside};

// How many words a record takes, and how many floats, by table.
const WORDS: [usize; 10] = [19, 19, 836, 24, 1026, 4, 16, 1, 1, 1];

const REALS: [usize; 10] = [0, 0, 0, 0, 0, 0, 1, 4, 6, 6];

// Where table k begins, the first of them at `from`.
fn base(from: usize, strides: &[usize; 10], room: &[usize; 10], k: usize) -> usize
    requires small { Small room.now }
    requires strides { Strides strides.now }
    requires from_bound { (from ≤ 11) × (k ≤ 10) }
    ensures { result ≡ base from strides.now room.now k }
{
    let mut at = from;
    for i in 0..k {
        at = at + strides[i] * room[i];
    }
    at
}

// Where record i of table k begins.
fn record_at(from: usize, strides: &[usize; 10], room: &[usize; 10], k: usize, i: usize) -> usize
    requires small { Small room.now }
    requires strides { Strides strides.now }
    requires from_bound { (from ≤ 11) × (k < 10) × (i ≤ 4096) }
    ensures { result ≡ record_at from strides.now room.now k i }
{
    base(from, strides, room, k) + strides[k] * i
}

pub fn word_at(room: &[usize; 10], k: usize, i: usize) -> usize
    requires small { Small room.now }
    requires k_bound { (k < 10) × (i ≤ 4096) }
    ensures { result ≡ word_at room.now k i }
{
    let strides = WORDS;
    record_at(11, &strides, room, k, i)
}

// Where the record of a body begins, whatever the capacities: the bodies come first.
pub fn body_at(i: usize) -> usize
    requires { i < 4294967296 }
    ensures { (room : List ℕ) → result ≡ word_at room BODIES i }
{
    11 + 19 * i
}

pub fn real_at(room: &[usize; 10], k: usize, i: usize) -> usize
    requires small { Small room.now }
    requires k_bound { (k < 10) × (i ≤ 4096) }
    ensures { result ≡ real_at room.now k i }
{
    let strides = REALS;
    record_at(1, &strides, room, k, i)
}

pub fn words_needed(room: &[usize; 10]) -> usize
    requires { Small room.now }
    ensures { result ≡ words_needed room.now }
{
    let strides = WORDS;
    base(11, &strides, room, 10)
}

pub fn reals_needed(room: &[usize; 10]) -> usize
    requires { Small room.now }
    ensures { result ≡ reals_needed room.now }
{
    let strides = REALS;
    base(1, &strides, room, 10)
}

// How many words a record of table k takes, and how many floats.
pub fn word_stride(k: usize) -> usize
    requires { k < 10 }
    ensures { result ≡ word word_strides k }
{
    WORDS[k]
}

pub fn real_stride(k: usize) -> usize
    requires { k < 10 }
    ensures { result ≡ word real_strides k }
{
    REALS[k]
}

// The words of record i of table k, and its floats.
pub fn words_of<'a>(room: &[usize; 10], words: &'a [u32], k: usize, i: usize) -> &'a [u32]
    requires small { Small room.now }
    requires inside { Inside (words_needed room.now) (length words.now) room.now k i }
    ensures { result.now ≡ words_of room.now words.now k i }
{
    let at = word_at(room, k, i);
    let end = at + word_stride(k);
    &words[at..end]
}

pub fn reals_of<'a>(room: &[usize; 10], reals: &'a [f64], k: usize, i: usize) -> &'a [f64]
    requires small { Small room.now }
    requires inside { Inside (reals_needed room.now) (length reals.now) room.now k i }
    ensures { result.now ≡ reals_of room.now reals.now k i }
{
    let at = real_at(room, k, i);
    let end = at + real_stride(k);
    &reals[at..end]
}
