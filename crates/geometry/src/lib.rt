// Camber curves: through the centres of the circles in a store, alone or between two end points.
#![tactic(auto)]

pub mod centers;
pub mod checked;

ghost use Rattle.std.specs.Prelude.{false, ◌∷◌, [], ◌++◌, ◌+◌, ◌*◌, ◌≤◌, length};
ghost use Rattle.cleaning.specs.Cleaning.{curve_of, Made};
ghost use Rattle.geometry.specs.Camber.{centers, camber_curve, camber_curve_between};

use checked::MOST_NUMBERS;
use cleaning::Curve;
use cleaning::checked::{clean_points, put};
use errors::Refusal;
use inscribed::checked::CirclesInUse;
use points::Point2;

// The same between two end points.
fn curve_between(
    le_point: Point2,
    te_point: Point2,
    circles: &CirclesInUse<'_>,
    tol: f64,
    out: &mut [f64],
) -> Result<Curve, Refusal>
    requires room { 2 * (circles.now.count + 2) + 2 ≤ length out.old }
    ensures { Made (curve_of tol false (le_point ∷ (centers circles.now.store.now circles.now.count ++ (te_point ∷ [])))) tol out.old out.new result }
{
    let mut points = [0.0; MOST_NUMBERS];
    put(&mut points, 0, le_point);
    checked::put_centers(circles, &mut points, 1);
    put(&mut points, 1 + circles.count, te_point);
    clean_points(&points[..2 * (circles.count + 2)], tol, false, out)
}

// The curve through the centres of the circles in use, cleaned. The output keeps what stands behind it.
#[tactic(auto, using(crate::proofs::CentersLaws::camber_passed), unfolding(crate::specs::Camber::camber_curve))]
pub fn camber_curve(
    store: &[f64],
    count: usize,
    tol: f64,
    out: &mut [f64],
) -> Result<Curve, Refusal>
    ensures { Made (camber_curve store.now count tol (length out.old)) tol out.old out.new result }
{
    let circles = centers::entered(store, count, tol, &[], out.len())?;
    checked::centers_curve(&circles, tol, out)
}

// The same from the leading edge point to the trailing edge point.
#[tactic(auto, using(crate::proofs::CentersLaws::camber_passed), unfolding(crate::specs::Camber::camber_curve_between))]
pub fn make_camber_curve(
    le_point: Point2,
    te_point: Point2,
    store: &[f64],
    count: usize,
    tol: f64,
    out: &mut [f64],
) -> Result<Curve, Refusal>
    ensures { Made (camber_curve_between le_point te_point store.now count tol (length out.old)) tol out.old out.new result }
{
    let circles = centers::entered(store, count, tol, &[le_point, te_point], out.len())?;
    curve_between(le_point, te_point, &circles, tol, out)
}
