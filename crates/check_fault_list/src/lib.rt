// For callers: `faults_fill`, the fault entries as a list of structs that the caller lends (01, "The fault entries lie in a list that the caller
// lends"), thin functions over what the core left in plain numbers, four to a fault. Inner: `told_at` and `write`.
#![tactic(auto)]

ghost use Rattle.std.specs.Prelude.{◌≡◌, ◌≤◌, ◌+◌, ◌*◌, ◌/◌, min, length};
ghost use Rattle.check_fault_list.specs.List.{told, written};

// "A fault is kind, entity class, id, reason": the class by its table.
#[derive(Clone, Copy)]
pub struct Fault {
    pub kind: u32,
    pub class: u32,
    pub id: u32,
    pub reason: u32,
}

// Fault k of a list of plain numbers.
fn told_at(nums: &[u32], k: usize) -> Fault
    requires { k * 4 + 4 ≤ length nums.now }
    ensures { result ≡ told nums.now k }
{
    let at = k * 4;
    Fault {
        kind: nums[at],
        class: nums[at + 1],
        id: nums[at + 2],
        reason: nums[at + 3],
    }
}

// The first n faults go from plain numbers into the lent list.
fn write(list: &mut [Fault], nums: &[u32], n: usize)
    requires { (n ≤ length list.old) × (n * 4 ≤ length nums.now) }
    ensures { list.new ≡ written list.old nums.now n }
{
    for i in 0..n {
        list[i] = told_at(nums, i);
    }
}

fn lesser(a: usize, b: usize) -> usize
    ensures { result ≡ min a b }
{
    if a < b { a } else { b }
}

// How many faults are kept: no more than there are, than the list has room for, and than the numbers tell.
fn fit(room: usize, words: usize, total: usize) -> usize
    ensures { result ≡ min total (min room (words / 4)) }
{
    lesser(total, lesser(room, words / 4))
}

// Puts the first faults that fit into the list, of any numbers and any total, and says how many.
pub fn faults_fill(list: &mut [Fault], nums: &[u32], total: usize) -> usize
    ensures { (result ≡ min total (min (length list.old) (length nums.now / 4))) × (list.new ≡ written list.old nums.now result) }
{
    let n = fit(list.len(), nums.len(), total);
    write(list, nums, n);
    n
}
