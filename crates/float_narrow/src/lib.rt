// For callers: whether a float is a binary32 value, and its pattern there (W-209).
#![tactic(auto)]

ghost use Rattle.std.specs.Prelude.{◌≡◌};
ghost use Rattle.float_narrow.specs.Narrow.{narrow, narrow_bits};
ghost use Rattle.float_narrow.specs.Digits.{held};

// By a float's pattern without its sign: has binary32 a place for the number? Below its smallest normal number, whose exponent's field is 897 here, each step down costs a digit.
fn held(a: u64) -> bool
    ensures { result ≡ held a }
{
    let field = a / 0x10000000000000;
    if field < 874 {
        return a == 0;
    }
    if field < 897 {
        let digits = 0x10000000000000 + a % 0x10000000000000;
        return digits % (1u64 << (926 - field)) == 0;
    }
    (field < 1151) & (a % 0x20000000 == 0)
}

// Is it finite and a binary32 value?
pub fn narrow(x: f64) -> bool
    ensures { result ≡ narrow x }
{
    if x != x {
        return false;
    }
    held(f64::to_bits(x) % 0x8000000000000000)
}

// Its pattern in binary32; of any other float 0.
pub fn narrow_bits(x: f64) -> u32
    ensures { result ≡ narrow_bits x }
{
    if !narrow(x) {
        return 0;
    }
    f32::to_bits(x as f32)
}
