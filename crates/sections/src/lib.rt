// What is asked of a section handed in. Each function makes the entry tests, and then its step.
#![tactic(auto)]

pub mod checked;

ghost use Rattle.curve2.specs.Lent.{IsLent};
ghost use Rattle.errors.specs.Answer.{passed};
ghost use Rattle.std.specs.Prelude.{◌≡◌, false, ltb};
ghost use Rattle.curve2.specs.Entry.{section_entry};
ghost use Rattle.curve2.specs.Stations.{last_vertex};
ghost use Rattle.sections.specs.Asked.{closed_asked, length_asked, front_asked, back_asked, vertex_asked, at_length_asked, length_along_asked, closest_asked, crossing_asked, joined_asked};

use curve2::checked::Curve2;
use curve2::{AlsoBad, CurveStation2, entering};
use errors::{Finite, Refusal};
use line2::Line2;
use points::Point2;
use queries::Crossing;

mod lengths;

// The lengths along of two places.
#[derive(Clone, Copy)]
pub struct LengthPair {
    pub first: f64,
    pub second: f64,
}

// ---- the entry tests

// The entry tests, with a bad number (2) and a place that isn't there (4) among the other arguments: two flags, since an `AlsoBad` would take four lines more at each call.
fn entered(section: &[f64], tol: f64, number: bool, room: bool) -> Result<Curve2<'_>, Refusal>
    ensures entry { passed result ≡ section_entry section.now tol (record { number = number; tolerance = false; finer = false; room = room; state = false }) }
    ensures lent { IsLent section.now tol result }
{
    let also = AlsoBad {
        number,
        room,
        ..AlsoBad::default()
    };
    entering::section_entry(section, tol, also)
}

// Whether a section has an edge of that number.
fn has_edge(section: &[f64], index: usize) -> bool
    ensures { result ≡ ltb index (last_vertex section.now) }
{
    index < (section.len() / 2).saturating_sub(1)
}

// ---- the section itself

// Whether the section is closed.
#[tactic(auto, unfolding(crate::specs::Asked::closed_asked))]
pub fn is_closed(section: &[f64], tol: f64) -> Result<bool, Refusal>
    ensures { result ≡ closed_asked section.now tol }
{
    Ok(entered(section, tol, false, false)?.is_closed())
}

// The length of the whole.
#[tactic(auto, unfolding(crate::specs::Asked::length_asked))]
pub fn length(section: &[f64], tol: f64) -> Result<f64, Refusal>
    ensures { result ≡ length_asked section.now tol }
{
    errors::watch(entered(section, tol, false, false)?.whole_length())
}

// ---- stations

// The station at the first point.
#[tactic(auto, unfolding(crate::specs::Asked::front_asked))]
pub fn at_front(section: &[f64], tol: f64) -> Result<CurveStation2, Refusal>
    ensures { result ≡ front_asked section.now tol }
{
    entered(section, tol, false, false)?.at_front()
}

// The station at the last point.
#[tactic(auto, unfolding(crate::specs::Asked::back_asked))]
pub fn at_back(section: &[f64], tol: f64) -> Result<CurveStation2, Refusal>
    ensures { result ≡ back_asked section.now tol }
{
    entered(section, tol, false, false)?.at_back()
}

// The station at a vertex: 4 where there is none of that number.
#[tactic(auto, unfolding(crate::specs::Asked::vertex_asked))]
pub fn at_vertex(section: &[f64], tol: f64, index: usize) -> Result<CurveStation2, Refusal>
    ensures { result ≡ vertex_asked section.now tol index }
{
    let there = index < section.len() / 2;
    entered(section, tol, false, !there)?.at_vertex(index)
}

// The station at a length along: 2 where that isn't finite, 9 where it is off the section.
#[tactic(auto, unfolding(crate::specs::Asked::at_length_asked))]
pub fn at_length(section: &[f64], tol: f64, length: f64) -> Result<CurveStation2, Refusal>
    ensures { result ≡ at_length_asked section.now tol length }
{
    let good = length.all_finite();
    let curve = entered(section, tol, !good, false)?;
    checked::at_length(&curve, length)
}

// The length along of a place: 2 where its fraction isn't finite, 4 where there is no edge of that number.
#[tactic(auto, unfolding(crate::specs::Asked::length_along_asked))]
pub fn length_along(section: &[f64], tol: f64, index: usize, fraction: f64) -> Result<f64, Refusal>
    ensures { result ≡ length_along_asked section.now tol index fraction }
{
    let good = fraction.all_finite();
    let there = has_edge(section, index);
    let curve = entered(section, tol, !good, !there)?;
    checked::length_along(&curve, index, fraction)
}

// The station nearest to a point: 2 where that isn't finite.
#[tactic(auto, unfolding(crate::specs::Asked::closest_asked))]
pub fn at_closest_to_point(section: &[f64], tol: f64, p: Point2) -> Result<CurveStation2, Refusal>
    ensures { result ≡ closest_asked section.now tol p }
{
    let good = p.all_finite();
    let curve = entered(section, tol, !good, false)?;
    checked::at_closest_to_point(&curve, p)
}

// ---- crossings

// Where a line crosses the section: 2 where the line isn't finite, 8 where it has not exactly two hits.
#[tactic(auto, unfolding(crate::specs::Asked::crossing_asked))]
pub fn crossing_line(section: &[f64], tol: f64, line: Line2) -> Result<Crossing, Refusal>
    ensures { result ≡ crossing_asked section.now tol line }
{
    let good = line.all_finite();
    let curve = entered(section, tol, !good, false)?;
    queries::asked(queries::checked::crossing_line(&curve, line))
}

// The same, where hits nearer than 1e-8 to the last kept one, and on a neighbouring edge, count as one with it.
#[tactic(auto, unfolding(crate::specs::Asked::joined_asked))]
pub fn joined_crossing(section: &[f64], tol: f64, line: Line2) -> Result<Crossing, Refusal>
    ensures { result ≡ joined_asked section.now tol line }
{
    let good = line.all_finite();
    let curve = entered(section, tol, !good, false)?;
    queries::asked(queries::checked::joined_crossing(&curve, line))
}
