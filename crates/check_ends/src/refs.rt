// The end of a fin against the start of the next (part of `loop_` of gensolid-check's lib.rs).
ghost use Rattle.std.specs.Prelude.{◌≡◌};
ghost use Rattle.meaning.specs.Lists.{same};
ghost use Rattle.check_ends.specs.Ends.{ref_of};

// None against none is the same.
pub fn same_ref(a: Option<u32>, b: Option<u32>) -> bool
    ensures { result ≡ same (ref_of a) (ref_of b) }
{
    match a {
        None => match b {
            None => true,
            Some(_) => false,
        },
        Some(i) => match b {
            None => false,
            Some(j) => i == j,
        },
    }
}
