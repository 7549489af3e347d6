// The 64 digits of an f64 above zero taken apart, and those of its root put together.

ghost use Rattle.std.specs.Prelude.{◌≡◌, ◌+◌, ◌-◌, ◌*◌, ◌^◌, ◌<◌, ◌≤◌, T, from_bits};
ghost use Rattle.std.specs.Float.{binary64};
ghost use Rattle.std.specs.Float.Ieee.{low};
ghost use Rattle.std.specs.Float.Ieee.Positive.{positive};
ghost use Rattle.root.specs.Nearest.{square};
ghost use Rattle.root.specs.Code.{IsScaled};

// The number a * 2^52 * 4^k.
#[derive(Clone, Copy)]
pub struct Scaled {
    pub a: u64,
    pub k: u64,
}

// The number m * 2^52 * 2^e. Where e is odd, a takes a factor 2 of it.
fn halved(m: u64, e: u64) -> Scaled
    requires { (2 ^ 52 ≤ m) × (m < 2 ^ 53) × (e ≤ 3067) }
    ensures { IsScaled (m * 2 ^ 52 * 2 ^ e) result.a result.k }
{
    Scaled {
        a: m << (e & 1),
        k: e >> 1,
    }
}

// Where the exponent's field is 0, the value is `fraction` units. Its leading zeros are shifted out.
fn subnormal(fraction: u64) -> Scaled
    requires { (0 < fraction) × (fraction < 2 ^ 52) }
    ensures { IsScaled (fraction * 2 ^ low binary64) result.a result.k }
{
    let zeros = fraction.leading_zeros();
    halved(fraction << (zeros - 11), 1033 - u64::from(zeros))
}

// Any other field counts from 1, and the fraction has a leading digit.
pub(crate) fn normal(field: u64, fraction: u64) -> Scaled
    requires { (0 < field) × (field < 2047) × (fraction < 2 ^ 52) }
    ensures { IsScaled ((2 ^ 52 + fraction) * 2 ^ (field - 1) * 2 ^ low binary64) result.a result.k }
{
    halved(fraction | 0x0010_0000_0000_0000, field + 1021)
}

// The square of the root of x, in units of 2^-1074.
pub(crate) fn split(x: f64) -> Scaled
    requires { T (positive x) }
    ensures { IsScaled (square x) result.a result.k }
{
    let bits = x.to_bits();
    let field = bits >> 52;
    let fraction = bits & 0x000f_ffff_ffff_ffff;
    if field == 0 {
        subnormal(fraction)
    } else {
        normal(field, fraction)
    }
}

// The value of q * 2^k units, where q has its 53 digits. A q of 2^53 carries into the exponent.
pub(crate) fn joined(k: u64, q: u64) -> f64
    requires { (k ≤ 1533) × (q ≤ 2 ^ 53) }
    ensures { result ≡ from_bits binary64 (k * 2 ^ 52 + q) }
{
    f64::from_bits((k << 52) + q)
}
