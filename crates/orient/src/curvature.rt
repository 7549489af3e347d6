// The check by curvature, on a camber curve: whether the contacts of the circles have to be swapped.
ghost use Rattle.std.specs.Prelude.{◌≡◌, ◌<◌};
ghost use Rattle.inscribed.specs.Store.{circles_of};
ghost use Rattle.orient.specs.Votes.{majority};
ghost use Rattle.orient.specs.Camber.{camber};
ghost use Rattle.orient.specs.Curvature.{sample_count, sample_length, sample_inside, sample_at, samples_from, is_right, right_of_chord, upper_to_right, side_vote, curvature_on};

use crate::voting::is_majority;
use curve2::checked::{Curve2, vertex_at};
use errors::Refusal;
use inscribed::Inscribed;
use inscribed::checked::CirclesInUse;
use line2::Line2;
use points::Point2;

// How many samples of the camber are taken.
const SAMPLES: usize = 50;

// ---- the samples of the camber

// The length along of sample i.
#[tactic(auto, unfolding(crate::specs::Curvature::sample_length))]
fn sample_length(whole: f64, i: usize) -> Result<f64, Refusal>
    requires { i < sample_count }
    ensures { result ≡ sample_length whole i }
{
    errors::watch(whole * i as f64 / (SAMPLES - 1) as f64)
}

// Sample i, between the camber's ends.
#[tactic(auto, unfolding(crate::specs::Curvature::sample_inside))]
fn sample_inside(curve: &Curve2<'_>, whole: f64, i: usize) -> Result<Point2, Refusal>
    requires { i < sample_count }
    ensures { result ≡ sample_inside (camber curve.now.points.now curve.now.tol) whole i }
{
    let along = sample_length(whole, i)?;
    Ok(sections::checked::at_length(curve, along)?.point)
}

// Sample i: the first and the last are the camber's ends.
#[tactic(auto, unfolding(crate::specs::Curvature::sample_at))]
fn sample_at(curve: &Curve2<'_>, whole: f64, i: usize) -> Result<Point2, Refusal>
    requires { i < sample_count }
    ensures { result ≡ sample_at (camber curve.now.points.now curve.now.tol) whole i }
{
    if i == 0 {
        Ok(vertex_at(curve.points, 0))
    } else if i == SAMPLES - 1 {
        Ok(vertex_at(curve.points, curve.last_vertex()))
    } else {
        sample_inside(curve, whole, i)
    }
}

// The samples one after the other.
fn samples(curve: &Curve2<'_>, whole: f64) -> Result<[Point2; SAMPLES], Refusal>
    ensures { result ≡ samples_from (camber curve.now.points.now curve.now.tol) whole 0 sample_count }
{
    let mut points = [Point2 { x: 0.0, y: 0.0 }; SAMPLES];
    for (i, point) in points.iter_mut().enumerate() {
        *point = sample_at(curve, whole, i)?;
    }
    Ok(points)
}

// ---- the upper side

// Whether a point lies to the right of a line.
#[tactic(auto, unfolding(crate::specs::Curvature::is_right))]
fn is_right(line: Line2, p: Point2) -> Result<bool, Refusal>
    ensures { result ≡ is_right line p }
{
    Ok(errors::is_plus(line.signed_distance_to(p)?))
}

// Whether most of the points lie to the right of a line.
fn are_most_right(points: &[Point2], line: Line2) -> Result<bool, Refusal>
    ensures { result ≡ majority (is_right line) points.now }
{
    is_majority(points.len(), |i| is_right(line, points[i]))
}

// The same of the line from the camber's first point to its last.
#[tactic(auto, unfolding(crate::specs::Curvature::right_of_chord))]
fn right_of_chord(curve: &Curve2<'_>, points: &[Point2]) -> Result<bool, Refusal>
    ensures { result ≡ right_of_chord curve.now.points.now points.now }
{
    let front = vertex_at(curve.points, 0);
    let back = vertex_at(curve.points, curve.last_vertex());
    are_most_right(points, Line2::from_points(front, back)?)
}

// Whether the upper side is to the right of the camber: 11 where the camber's ends meet.
#[tactic(auto, unfolding(crate::specs::Curvature::upper_to_right, crate::specs::Curvature::samples_of))]
fn is_upper_to_right(curve: &Curve2<'_>) -> Result<bool, Refusal>
    ensures { result ≡ upper_to_right (camber curve.now.points.now curve.now.tol) }
{
    if curve.is_closed() {
        return Err(Refusal::ZeroLength);
    }
    let whole = errors::watch(curve.whole_length())?;
    right_of_chord(curve, &samples(curve, whole)?)
}

// ---- the votes

// Whether a circle votes for its contacts to be swapped: its second contact isn't on the upper side.
#[tactic(auto, unfolding(crate::specs::Curvature::side_vote))]
fn side_vote(curve: &Curve2<'_>, right: bool, c: Inscribed) -> Result<bool, Refusal>
    ensures { result ≡ side_vote curve.now.points.now right c }
{
    let at = sections::checked::at_closest_to_point(curve, c.center())?.surface_point();
    let on_right = errors::is_plus(at.scalar_projection(c.contact1())?);
    Ok(on_right != right)
}

// By curvature, on the camber curve of the circles.
#[tactic(auto, unfolding(crate::specs::Curvature::curvature_on))]
pub(crate) fn check_curvature(
    curve: &Curve2<'_>,
    circles: &CirclesInUse<'_>,
) -> Result<bool, Refusal>
    ensures { result ≡ curvature_on (circles_of circles.now.store.now circles.now.count) (camber curve.now.points.now curve.now.tol) }
{
    let right = is_upper_to_right(curve)?;
    is_majority(circles.count, |k| side_vote(curve, right, circles.at(k)))
}
