// The curve through the centres of a store that passed the entry tests.
ghost use Rattle.std.specs.Prelude.{◌≡◌, false, ◌+◌, ◌*◌, ◌≤◌, length};
ghost use Rattle.cleaning.specs.Cleaning.{curve_of, Made};
ghost use Rattle.geometry.specs.Camber.{centers};
ghost use Rattle.geometry.specs.Code.{put_all};

use cleaning::Curve;
use cleaning::checked::{clean_points, put};
use errors::Refusal;
use inscribed::checked::CirclesInUse;
use inscribed::store::MOST_SLOTS;

// The numbers of the centres of a full store and of two end points. They stand in an array: the library takes no memory from the heap.
pub(crate) const MOST_NUMBERS: usize = 2 * (MOST_SLOTS + 2);

// Puts the centres of the circles one after the other, the first at place `first`.
pub(crate) fn put_centers(circles: &CirclesInUse<'_>, points: &mut [f64], first: usize)
    requires { 2 * (first + circles.now.count) ≤ length points.old }
    ensures { points.new ≡ put_all first (centers circles.now.store.now circles.now.count) points.old }
{
    for k in 0..circles.count {
        put(points, first + k, circles.at(k).center());
    }
}

// The curve through the centres of the circles, where the output has been tested: 5 where fewer than two are kept.
pub fn centers_curve(
    circles: &CirclesInUse<'_>,
    tol: f64,
    out: &mut [f64],
) -> Result<Curve, Refusal>
    requires least { 1 ≤ circles.now.count }
    requires room { 2 * circles.now.count + 2 ≤ length out.old }
    ensures { Made (curve_of tol false (centers circles.now.store.now circles.now.count)) tol out.old out.new result }
{
    let mut points = [0.0; MOST_NUMBERS];
    put_centers(circles, &mut points, 0);
    clean_points(&points[..2 * circles.count], tol, false, out)
}
