// One edge of a section, from a point a to a point b: its nearest point to a point.
ghost use Rattle.std.specs.Prelude.{◌≡◌};
ghost use Rattle.points.specs.Closest.{fraction_on, held_point, held, measured_to, closest_on_edge};

use crate::Point2;
use errors::{Refusal, watch};

// The nearest point of an edge: the point, its fraction along the edge and its squared distance.
#[derive(Clone, Copy)]
pub struct EdgePoint {
    pub point: Point2,
    pub fraction: f64,
    pub square: f64,
}

// The fraction along the edge from a to b at which p projects on its line.
#[tactic(auto, unfolding(crate::specs::Closest::fraction_on))]
fn fraction_on(p: Point2, a: Point2, b: Point2) -> Result<f64, Refusal>
    ensures { result ≡ fraction_on p a b }
{
    let d = b - a;
    let along = (p - a).dot(d)?;
    let whole = d.dot(d)?;
    watch(along / whole)
}

// A fraction held to 0 to 1. Not `f64::clamp`, by which -0 would stay.
fn held_fraction(s: f64) -> f64
    ensures { result ≡ held s }
{
    if s <= 0.0 {
        0.0
    } else if 1.0 <= s {
        1.0
    } else {
        s
    }
}

// The point of the edge from a to b at a fraction, an end where the fraction is outside.
#[tactic(auto, unfolding(crate::specs::Closest::held_point))]
fn held_point(a: Point2, b: Point2, s: f64) -> Result<Point2, Refusal>
    ensures { result ≡ held_point a b s }
{
    if s <= 0.0 {
        Ok(a)
    } else if 1.0 <= s {
        Ok(b)
    } else {
        watch(a + (b - a) * s)
    }
}

// The squared distance from p to the point q of an edge, with q's fraction.
#[tactic(auto, unfolding(crate::specs::Closest::measured_to))]
fn measured(p: Point2, q: Point2, fraction: f64) -> Result<EdgePoint, Refusal>
    ensures { result ≡ measured_to p q fraction }
{
    let v = p - q;
    let square = v.dot(v)?;
    Ok(EdgePoint {
        point: q,
        fraction,
        square,
    })
}

// The nearest point to p of the edge from a to b.
#[tactic(auto, unfolding(crate::specs::Closest::closest_on_edge))]
pub fn closest_on_edge(p: Point2, a: Point2, b: Point2) -> Result<EdgePoint, Refusal>
    ensures { result ≡ closest_on_edge p a b }
{
    let s = fraction_on(p, a, b)?;
    let q = held_point(a, b, s)?;
    measured(p, q, held_fraction(s))
}
