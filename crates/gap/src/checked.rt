// The gap of a section that passed the entry tests, and the rounds of a fit into it.
ghost use Rattle.std.specs.Prelude.{◌≡◌, ◌≤◌};
ghost use Rattle.gap.specs.Gap.{gap_of};
ghost use Rattle.runs.specs.Run.{under_limit};
ghost use Rattle.inscribed.specs.Changes.{in_use};
ghost use Rattle.gap.specs.Code.{Fits};
ghost use Rattle.gap.specs.Rounds.{most_rounds, rounds, first_progress};

use crate::round::Reached;
use crate::{Gap, round};
use curve2::checked::{Curve2, vertex_at};
use errors::Refusal;
use inscribed::checked::CirclesStore;
use line2::Line2;
use points::Point2;
use refine::Run;
use runs::Units;
use std::ops::ControlFlow;

// The gap from the first point of a section to its last: 17 where the section is closed.
#[tactic(auto, unfolding(crate::specs::Gap::gap_of))]
pub fn open_gap_segment(section: &Curve2<'_>) -> Result<Gap, Refusal>
    ensures { result ≡ gap_of section.now.points.now section.now.tol }
{
    if section.is_closed() {
        return Err(Refusal::ClosedSection);
    }
    let a = vertex_at(section.points, 0);
    let b = vertex_at(section.points, section.last_vertex());
    Ok(Gap {
        a,
        b,
        chord: Line2::from_points(a, b)?,
    })
}

// How many rounds a fit makes at most.
const MOST_ROUNDS: usize = 20;

// At most 20 rounds, until the point moves by no more than the general tolerance.
pub fn rounds(
    section: &Curve2<'_>,
    tol: f64,
    circles: &mut CirclesStore<'_>,
    gap: Gap,
    first: Point2,
    limit: u32,
) -> Run<Point2>
    requires { 2 ≤ circles.old.count }
    ensures { Fits (rounds section.now.points.now tol circles.old.slots (under_limit limit) gap most_rounds (first_progress first (in_use circles.old))) circles.old circles.new result }
{
    let mut reached = Reached {
        point: first,
        drift: f64::INFINITY,
        units: 0,
    };
    for turn in 0..MOST_ROUNDS {
        if reached.drift <= tol {
            return Run::finished(reached.point, circles.count, reached.units);
        }
        let units = Units {
            limit,
            taken: reached.units,
        };
        match round::round(section, tol, circles, gap, reached.point, units) {
            ControlFlow::Break(fit) => return fit,
            ControlFlow::Continue(next) => reached = next,
        }
    }
    Run::finished(reached.point, circles.count, reached.units)
}
