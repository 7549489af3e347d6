// The entry tests of a camber curve: the circles in use, their centres, the end points, the tolerance and the output's length.
ghost use Rattle.std.specs.Prelude.{◌≡◌, ◌≤◌, length, IfOk};
ghost use Rattle.std.specs.List.{list_any};
ghost use Rattle.errors.specs.Answer.{passed};
ghost use Rattle.geometry.specs.Camber.{bad_point, bad_centers, camber_entry};

use curve2::entering;
use errors::Refusal;
use inscribed::checked::{CirclesInUse, circle_at};
use inscribed::store;
use points::Point2;

// A point with a coordinate that isn't finite or lies beyond 1,000,000.
fn is_bad_point(p: Point2) -> bool
    ensures { result ≡ bad_point p }
{
    !(entering::is_in_range(p.x) && entering::is_in_range(p.y))
}

// Whether one of some points is a bad point.
fn has_bad_point(points: &[Point2]) -> bool
    ensures { result ≡ list_any bad_point points.now }
{
    points.iter().any(|p| is_bad_point(*p))
}

// Whether a centre in use, as far as the store holds them, is a bad point.
pub fn has_bad_center(store: &[f64], count: usize) -> bool
    ensures { result ≡ bad_centers store.now count }
{
    let n = count.min(store::slots_in(store.len(), store::MOST_SLOTS));
    (0..n).any(|k| is_bad_point(circle_at(store, k).center()))
}

// The entry tests, with the end points beside the centres and the output's length. The circles in use are handed on where they passed.
#[tactic(auto, unfolding(crate::specs::Camber::camber_entry))]
pub(crate) fn entered<'a>(
    store: &'a [f64],
    count: usize,
    tol: f64,
    ends: &[Point2],
    room: usize,
) -> Result<CirclesInUse<'a>, Refusal>
    requires { length ends.now ≤ 2 }
    ensures entry { passed result ≡ camber_entry store.now count tol (list_any bad_point ends.now) (length ends.now) room }
    ensures lent { IfOk result (λ c. (c.store.now ≡ store.now) × (c.count ≡ count)) }
{
    if store::has_bad_circle(store, count) || has_bad_center(store, count) || has_bad_point(ends) {
        return Err(Refusal::BadNumber);
    }
    if entering::is_bad_tolerance(tol) {
        return Err(Refusal::Tolerance);
    }
    if store::is_bad_store_count(store, count) || room < 2 * (count + ends.len()) + 2 {
        return Err(Refusal::NoRoom);
    }
    if count + ends.len() < 2 {
        return Err(Refusal::TooFewKept);
    }
    Ok(CirclesInUse { store, count })
}
