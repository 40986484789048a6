// Rows of tests, as the definitions write them: a refusal's number, or 0.
ghost use Rattle.std.specs.Prelude.{◌≡◌};
ghost use Rattle.geom_lines_planes.specs.Refuse.{◌unless◌, ◌then◌};

// 0 where the test passes, else the refusal n.
pub fn unless(n: u32, ok: bool) -> u32
    ensures { result ≡ n unless ok }
{
    if ok {
        return 0;
    }
    n
}

// The refusal a, or where there is none, b.
pub fn then(a: u32, b: u32) -> u32
    ensures { result ≡ a then b }
{
    if a != 0 {
        return a;
    }
    b
}
