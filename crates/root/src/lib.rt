// Square roots of f64, correctly rounded, and the root asked for directly.
#![tactic(auto)]

pub mod digits;
pub mod isqrt;

ghost use Rattle.std.specs.Prelude.{◌≡◌};
ghost use Rattle.root.specs.Sqrt.{root_asked, sqrt_of};

use errors::{Finite, Refusal, watch};

mod estimate;

// The square root, rounded to the nearest value. A number below zero gives NaN, and -0 gives -0.
// A normal number above zero has an estimate, which is the root where it is the nearest value. Anything else goes by digits.
pub fn square_root(x: f64) -> f64
    ensures { result ≡ sqrt_of x }
{
    if x.is_nan() {
        return x;
    }
    let bits = x.to_bits();
    let field = bits >> 52;
    let fraction = bits & 0x000f_ffff_ffff_ffff;
    // one test for 0 < field < 2047: two take five instructions more a root
    if field.wrapping_sub(1) < 2046 {
        let scaled = digits::pattern::normal(field, fraction);
        let q = estimate::estimate(bits);
        if estimate::is_nearest(scaled.a, q) {
            return digits::pattern::joined(scaled.k, q);
        }
    }
    digits::square_root_by_digits(x)
}

// The square root asked for directly: 2 where x isn't finite, 12 where it is below zero.
pub fn sqrt(x: f64) -> Result<f64, Refusal>
    ensures { result ≡ root_asked x }
{
    if x.all_finite() {
        watch(square_root(x))
    } else {
        Err(Refusal::BadNumber)
    }
}
