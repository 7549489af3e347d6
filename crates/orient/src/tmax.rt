// The check by the greatest radius, on a camber curve: whether the circles have to be turned.
ghost use Rattle.std.specs.Prelude.{◌≡◌, ◌≤◌};
ghost use Rattle.inscribed.specs.Store.{circles_of};
ghost use Rattle.orient.specs.Orientation.{thickest, behind_half, in_back_half};

use curve2::checked::Curve2;
use errors::Refusal;
use inscribed::Inscribed;
use inscribed::checked::CirclesInUse;

// Whether a length along isn't in the first half of a curve.
#[tactic(auto, unfolding(crate::specs::Orientation::behind_half))]
fn is_behind_half(curve: &Curve2<'_>, along: f64) -> Result<bool, Refusal>
    ensures { result ≡ behind_half curve.now.points.now along }
{
    let whole = errors::watch(curve.whole_length())?;
    Ok(!(along < whole * 0.5))
}

// Whether a circle's place on a curve isn't in its first half.
#[tactic(auto, using(crate::proofs::tmax::Laws::station_below), unfolding(crate::specs::Orientation::in_back_half))]
fn is_in_back_half(curve: &Curve2<'_>, c: Inscribed) -> Result<bool, Refusal>
    ensures { result ≡ in_back_half curve.now.points.now c }
{
    let s = sections::checked::at_closest_to_point(curve, c.center())?;
    let along = sections::checked::length_along(curve, s.index, s.fraction)?;
    is_behind_half(curve, along)
}

// The thickest circle.
#[tactic(auto, using(crate::proofs::tmax::Laws::thickest_below, crate::proofs::tmax::Laws::thickest_at))]
fn thickest(circles: &CirclesInUse<'_>) -> Inscribed
    requires { 1 ≤ circles.now.count }
    ensures { result ≡ thickest (circles_of circles.now.store.now circles.now.count) }
{
    circles.at(circles.index_of_tmax())
}

// By greatest radius, on the camber curve of the circles.
pub(crate) fn check_tmax(curve: &Curve2<'_>, circles: &CirclesInUse<'_>) -> Result<bool, Refusal>
    requires { 1 ≤ circles.now.count }
    ensures { result ≡ in_back_half curve.now.points.now (thickest (circles_of circles.now.store.now circles.now.count)) }
{
    is_in_back_half(curve, thickest(circles))
}
