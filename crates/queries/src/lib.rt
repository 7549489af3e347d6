// Where a line crosses a section, and which of its points is nearest to a point. The functions of `checked` take a section that passed the entry tests.
#![tactic(auto)]

pub mod checked;

ghost use Rattle.std.specs.Prelude.{◌≡◌};
ghost use Rattle.queries.specs.Code.{asked_of};

use errors::Refusal;
use line2::Line2;
use points::segment2::EdgePoint;

mod hits;
mod joined;

// A hit of a line: its fraction along the line, and its edge.
#[derive(Clone, Copy, Default)]
pub struct Hit {
    pub t: f64,
    pub edge: usize,
}

// The edges of the two hits of a crossing, in the order of its two points.
#[derive(Clone, Copy)]
pub struct HitEdges {
    pub first: usize,
    pub second: usize,
}

// A line whose ends, at 0 and at 1, are its two hits, and their edges.
#[derive(Clone, Copy)]
pub struct Crossing {
    pub line: Line2,
    pub edges: HitEdges,
}

// A line asked for directly, or a start line, must cross: 8 where it has not exactly two hits.
pub fn asked(found: Result<Option<Crossing>, Refusal>) -> Result<Crossing, Refusal>
    ensures { result ≡ asked_of found }
{
    found?.ok_or(Refusal::NoCrossing)
}

// The nearest point of a section: its edge, and the point on it.
#[derive(Clone, Copy)]
pub struct Nearest {
    pub index: usize,
    pub at: EdgePoint,
}
