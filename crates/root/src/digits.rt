// The square root of an f64 by its 64 bits: they are split into exponent and fraction, the root of a whole number is taken, and its digits are put together again.

ghost use Rattle.std.specs.Prelude.{◌≡◌, T};
ghost use Rattle.std.specs.Float.Ieee.Positive.{positive};
ghost use Rattle.root.specs.Sqrt.{sqrt_of};

use crate::isqrt;

pub(crate) mod pattern;

// The root of a number that is finite and above zero. It is rounded up where what is left of the square is more than the root.
fn root_above_zero(x: f64) -> f64
    requires { T (positive x) }
    ensures { result ≡ sqrt_of x }
{
    let scaled = pattern::split(x);
    let root = isqrt::root_of_word(scaled.a << 10, 53);
    if root.q < root.r {
        pattern::joined(scaled.k, root.q + 1)
    } else {
        pattern::joined(scaled.k, root.q)
    }
}

// The square root, rounded to the nearest value. A number below zero gives NaN, and -0 gives -0.
pub(crate) fn square_root_by_digits(x: f64) -> f64
    ensures { result ≡ sqrt_of x }
{
    if x < 0.0 {
        f64::NAN
    } else if 0.0 < x && x < f64::INFINITY {
        root_above_zero(x)
    } else {
        x
    }
}
