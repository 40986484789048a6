// Optional ids held against others: the sides of a face against a shell (parts of `face` of gensolid-check's lib.rs).
ghost use Rattle.std.specs.Prelude.{◌≡◌};
ghost use Rattle.meaning.specs.Lists.{is};
ghost use Rattle.meaning.specs.Faults.{checked_from};
ghost use Rattle.check_ends.specs.Ends.{ref_of};

pub fn is_shell(side: Option<u32>, s: u32) -> bool
    ensures { result ≡ is (ref_of side) s }
{
    match side {
        None => false,
        Some(i) => i == s,
    }
}

// A face is checked from its front shell, or from each shell that lists it where front is none.
pub fn checked_from(front: Option<u32>, s: u32) -> bool
    ensures { result ≡ checked_from (ref_of front) s }
{
    match front {
        None => true,
        Some(own) => own == s,
    }
}
