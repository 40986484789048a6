// Inner: the faults that plain numbers tell, as structs by value. A list of four is lent to `faults_fill`.
#![tactic(auto)]

ghost use Rattle.std.specs.Prelude.{◌≡◌, ◌/◌, min, length, replicate};
ghost use Rattle.check_fault_list.specs.List.{no_fault, written};

use check_fault_list::{Fault, faults_fill};

// How many were kept, and the list, which begins with them.
#[derive(Clone, Copy)]
pub struct Kept {
    pub count: usize,
    pub list: [Fault; 4],
}

fn both(count: usize, list: [Fault; 4]) -> Kept
    ensures { (result.count ≡ count) × (result.list ≡ list) }
{
    Kept { count, list }
}

// The first faults, as many as fit.
pub fn entries(nums: &[u32], total: usize) -> Kept
    ensures { (result.count ≡ min total (min 4 (length nums.now / 4))) × (result.list ≡ written (replicate 4 no_fault) nums.now result.count) }
{
    let none = Fault {
        kind: 0,
        class: 0,
        id: 0,
        reason: 0,
    };
    let mut list = [none; 4];
    let count = faults_fill(&mut list, nums, total);
    both(count, list)
}
