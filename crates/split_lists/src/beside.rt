// New entries beside old ones: each list that names a fin or a wire edge of a split edge, written anew in its place.
ghost use Rattle.std.specs.Prelude.{◌≡◌, ◌+◌, ◌≤◌, ◌<◌, length};
ghost use Rattle.meaning.specs.Lists.{place, joined};
ghost use Rattle.memory_writes.specs.Put.{over};
ghost use Rattle.split_lists.specs.Beside.{entries_for, doubled};
ghost use Rattle.split_lists.specs.BesideFacts.{Olds, Longer};

use memory_writes::write::write_words;

// How many entries stand before the first x.
fn place_of(s: &[u32], x: u32) -> usize
    ensures { result ≡ place x s.now }
{
    for (j, id) in s.iter().enumerate() {
        if x == *id {
            return j;
        }
    }
    s.len()
}

// What stands for the entry i, written at place q: the place behind it. The new id of old k is first + k.
fn put_for(
    w: &mut [u32],
    q: usize,
    olds: &[u32],
    owners: &[u32],
    senses: &[u32],
    owner: u32,
    first: u32,
    i: u32,
) -> usize
    requires olds { Olds olds.now owners.now senses.now first }
    requires i_in_bounds { q + length (entries_for olds.now owners.now senses.now owner first i) ≤ length w.old }
    ensures behind { result ≡ q + length (entries_for olds.now owners.now senses.now owner first i) }
    ensures list { w.new ≡ over q (entries_for olds.now owners.now senses.now owner first i) w.old }
{
    let k = place_of(olds, i);
    if olds.len() <= k {
        w[q] = i;
        return q + 1;
    }
    if owners[k] != owner {
        w[q] = i;
        return q + 1;
    }
    if senses[k] == 0 {
        w[q] = i;
        w[q + 1] = first + k as u32;
        return q + 2;
    }
    w[q] = first + k as u32;
    w[q + 1] = i;
    q + 2
}

// What stands for each entry of l, one after the other, from place q on: the place behind them.
fn put_each(
    w: &mut [u32],
    q: usize,
    olds: &[u32],
    owners: &[u32],
    senses: &[u32],
    owner: u32,
    first: u32,
    l: &[u32],
) -> usize
    requires olds { Olds olds.now owners.now senses.now first }
    requires l_in_bounds { q + length (joined (entries_for olds.now owners.now senses.now owner first) l.now) ≤ length w.old }
    ensures behind { result ≡ q + length (joined (entries_for olds.now owners.now senses.now owner first) l.now) }
    ensures list { w.new ≡ over q (joined (entries_for olds.now owners.now senses.now owner first) l.now) w.old }
{
    let mut p = q;
    for entry in l {
        p = put_for(w, p, olds, owners, senses, owner, first, *entry);
    }
    p
}

// The list at a place of a record: its length, then its entries, with what stands beside each; `copy` may hold anything.
fn double_with(
    w: &mut [u32],
    at: usize,
    copy: &mut [u32],
    olds: &[u32],
    owners: &[u32],
    senses: &[u32],
    owner: u32,
    first: u32,
)
    requires olds { Olds olds.now owners.now senses.now first }
    requires longer { Longer w.old at (entries_for olds.now owners.now senses.now owner first) }
    requires in_bounds { 1024 ≤ length copy.old }
    ensures { w.new ≡ doubled (entries_for olds.now owners.now senses.now owner first) at w.old }
{
    let n = w[at] as usize;
    let from = at + 1;
    let end = from + n;
    write_words(&mut copy[..n], 0, &w[from..end]);
    let behind = put_each(w, from, olds, owners, senses, owner, first, &copy[..n]);
    w[at] = (behind - from) as u32;
}

pub fn double(
    w: &mut [u32],
    at: usize,
    olds: &[u32],
    owners: &[u32],
    senses: &[u32],
    owner: u32,
    first: u32,
)
    requires olds { Olds olds.now owners.now senses.now first }
    requires longer { Longer w.old at (entries_for olds.now owners.now senses.now owner first) }
    ensures { w.new ≡ doubled (entries_for olds.now owners.now senses.now owner first) at w.old }
{
    let mut copy = [0u32; 1024];
    double_with(w, at, &mut copy, olds, owners, senses, owner, first);
}
