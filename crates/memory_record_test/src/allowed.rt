// Whether a tolerance, a precision, a version, and a body, region or shell by its own words, is one that refusal 9 lets through. `specs/Readable.antt` of
// `memory_layout` has the tests.
ghost use Rattle.std.specs.Prelude.{◌≡◌, length};
ghost use Rattle.meaning.specs.Edits.{tolerance_ok, precision_ok};
ghost use Rattle.geom_lines_planes.specs.declared.tolerance.Tolerance.TheVariants.{Own};
ghost use Rattle.memory_layout.specs.Readable.{version_ok, body_ok, region_ok, shell_ok, own_ok};

use float_vectors::vector::is_finite;
use memory_layout::names::{
    AT_BODY_KIND, AT_BODY_OFFICE, AT_BODY_REGIONS, AT_REGION_SHELLS, AT_REGION_SOLID,
    AT_SHELL_ACORNS, AT_SHELL_FACES, AT_SHELL_WIRES,
};

pub fn tolerance_ok(t: f64) -> bool
    ensures { result ≡ tolerance_ok (Own t) }
{
    is_finite(t) & (0.0 <= t)
}

pub fn precision_ok(p: f64) -> bool
    ensures { result ≡ precision_ok p }
{
    is_finite(p) & (0.0 < p)
}

pub fn version_ok(v: u32) -> bool
    ensures { result ≡ version_ok v }
{
    (v == 1) | (v == 2)
}

pub fn own_ok(tag: u32, t: f64) -> bool
    ensures { result ≡ own_ok tag t }
{
    (tag == 0) | tolerance_ok(t)
}

pub fn body_ok(w: &[u32]) -> bool
    requires { length w.now ≡ 19 }
    ensures { result ≡ body_ok w.now }
{
    (w[AT_BODY_KIND] <= 4) & (w[AT_BODY_OFFICE] <= 1) & (w[AT_BODY_REGIONS] <= 16)
}

pub fn region_ok(w: &[u32]) -> bool
    requires { length w.now ≡ 19 }
    ensures { result ≡ region_ok w.now }
{
    (w[AT_REGION_SOLID] <= 1) & (w[AT_REGION_SHELLS] <= 16)
}

pub fn shell_ok(w: &[u32]) -> bool
    requires { length w.now ≡ 836 }
    ensures { result ≡ shell_ok w.now }
{
    (w[AT_SHELL_FACES] <= 512) & (w[AT_SHELL_WIRES] <= 256) & (w[AT_SHELL_ACORNS] <= 64)
}
