// Places on a section whose entry tests passed: the station at a length, the length along of a place, and the station nearest to a point.
ghost use Rattle.std.specs.Prelude.{◌≡◌, ◌≤◌, ◌<◌};
ghost use Rattle.curve2.specs.Stations.{last_vertex};
ghost use Rattle.sections.specs.Places.{at_length, length_at, length_along, lengths_along, at_closest, closest_lengths};

use crate::{LengthPair, lengths};
use curve2::CurveStation2;
use curve2::checked::{Curve2, edge_length};
use errors::Refusal;
use points::Point2;

// The station at a length along: 9 where that is below 0 or above the whole.
#[tactic(auto, unfolding(crate::specs::Places::at_length))]
pub fn at_length(section: &Curve2<'_>, length: f64) -> Result<CurveStation2, Refusal>
    ensures { result ≡ at_length section.now.points.now section.now.tol length }
{
    if length < 0.0 || section.whole_length() < length {
        return Err(Refusal::OffCurve);
    }
    lengths::length_found(section, length)
}

// The length at a vertex from that at an earlier one, edge by edge.
fn length_on(section: &Curve2<'_>, start: usize, length: f64, index: usize) -> f64
    requires { (start ≤ index) × (index < last_vertex section.now.points.now) × (length ≡ length_at section.now.points.now start) }
    ensures { result ≡ length_at section.now.points.now index }
{
    let mut m = length;
    for i in start..index {
        m = edge_length(section.points, 2 * i) + m;
    }
    m
}

// The length at a vertex, edge by edge.
pub fn length_to(section: &Curve2<'_>, index: usize) -> f64
    requires { index < last_vertex section.now.points.now }
    ensures { result ≡ length_at section.now.points.now index }
{
    length_on(section, 0, 0.0, index)
}

// The length along of a place on the edge that starts at the length m.
fn length_within(section: &Curve2<'_>, index: usize, m: f64, fraction: f64) -> Result<f64, Refusal>
    requires { (index < last_vertex section.now.points.now) × (m ≡ length_at section.now.points.now index) }
    ensures { result ≡ length_along section.now.points.now index fraction }
{
    let n = edge_length(section.points, 2 * index) + m;
    errors::watch(m + (n - m) * fraction)
}

// The length along of a place: the lengths up to its edge, and its fraction of that edge's.
pub fn length_along(section: &Curve2<'_>, index: usize, fraction: f64) -> Result<f64, Refusal>
    requires { index < last_vertex section.now.points.now }
    ensures { result ≡ length_along section.now.points.now index fraction }
{
    length_within(section, index, length_to(section, index), fraction)
}

// The lengths at two vertices, in one pass up to the later one.
fn lengths_to(section: &Curve2<'_>, i: usize, j: usize) -> LengthPair
    requires { (i < last_vertex section.now.points.now) × (j < last_vertex section.now.points.now) }
    ensures { result ≡ record { first = length_at section.now.points.now i; second = length_at section.now.points.now j } }
{
    if j < i {
        let second = length_to(section, j);
        let first = length_on(section, j, second, i);
        return LengthPair { first, second };
    }
    let first = length_to(section, i);
    let second = length_on(section, i, first, j);
    LengthPair { first, second }
}

// The lengths along of two places.
#[tactic(auto, unfolding(crate::specs::Places::lengths_along))]
pub fn lengths_along(
    section: &Curve2<'_>,
    i: usize,
    f: f64,
    j: usize,
    g: f64,
) -> Result<LengthPair, Refusal>
    requires { (i < last_vertex section.now.points.now) × (j < last_vertex section.now.points.now) }
    ensures { result ≡ lengths_along section.now.points.now i f j g }
{
    let starts = lengths_to(section, i, j);
    let first = length_within(section, i, starts.first, f)?;
    let second = length_within(section, j, starts.second, g)?;
    Ok(LengthPair { first, second })
}

// The station of the nearest point of a section to p.
#[tactic(auto, unfolding(crate::specs::Places::at_closest))]
pub fn at_closest_to_point(section: &Curve2<'_>, p: Point2) -> Result<CurveStation2, Refusal>
    ensures { result ≡ at_closest section.now.points.now p }
{
    let n = queries::checked::closest_point(section, p)?;
    Ok(CurveStation2 {
        point: n.at.point,
        direction: section.edge_direction(n.index)?,
        index: n.index,
        fraction: n.at.fraction,
    })
}

// The lengths along of the section's nearest points to p and to q.
#[tactic(auto, unfolding(crate::specs::Places::closest_lengths))]
pub fn closest_lengths(section: &Curve2<'_>, p: Point2, q: Point2) -> Result<LengthPair, Refusal>
    ensures { result ≡ closest_lengths section.now.points.now p q }
{
    let a = queries::checked::closest_point(section, p)?;
    let b = queries::checked::closest_point(section, q)?;
    lengths_along(section, a.index, a.at.fraction, b.index, b.at.fraction)
}
