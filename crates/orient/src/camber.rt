// The camber curve of circles in use, on which two of the checks are made.
ghost use Rattle.std.specs.Prelude.{◌≡◌, ◌≤◌};
ghost use Rattle.inscribed.specs.Store.{circles_of};
ghost use Rattle.orient.specs.Camber.{camber_lent, camber_of};

use curve2::checked::Curve2;
use errors::Refusal;
use inscribed::checked::CirclesInUse;
use inscribed::store::MOST_SLOTS;

// The numbers of the centres of a full store, and two more that cleaning asks for. They stand in an array: the library takes no memory from the heap.
pub(crate) const MOST_NUMBERS: usize = 2 * MOST_SLOTS + 2;

// The camber curve, in an array: its tolerance is a part of the average spacing.
#[tactic(auto, unfolding(crate::specs::Camber::camber_of, crate::specs::Camber::camber_with))]
pub(crate) fn camber_curve<'a>(
    circles: &CirclesInUse<'_>,
    numbers: &'a mut [f64; MOST_NUMBERS],
) -> Result<Curve2<'a>, Refusal>
    requires { 1 ≤ circles.now.count }
    ensures { camber_lent result ≡ camber_of (circles_of circles.now.store.now circles.now.count) }
{
    let tol = circles.average_spacing()? * 5e-2;
    let made = geometry::checked::centers_curve(circles, tol, numbers)?;
    Ok(Curve2 {
        points: &numbers[..2 * made.count],
        tol,
    })
}
