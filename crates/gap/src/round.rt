// One round of a fit into the gap of an open section. The end that is meant is that of the last circles in the store.
ghost use Rattle.std.specs.Prelude.{◌≡◌, ◌≤◌};
ghost use Rattle.runs.specs.Run.{under_limit};
ghost use Rattle.inscribed.specs.Store.{circles_of};
ghost use Rattle.inscribed.specs.Changes.{in_use};
ghost use Rattle.refine.specs.Report.{listed_end};
ghost use Rattle.gap.specs.Rounds.{moved_point, after_refined, round};
ghost use Rattle.gap.specs.Code.{round_in, round_count, Rounded};

use crate::{Gap, probe};
use curve2::checked::Curve2;
use errors::Refusal;
use inscribed::checked::{CirclesInUse, CirclesStore};
use lists::checked::last_pair;
use points::Point2;
use refine::{Run, RunEnd};
use runs::Units;
use std::ops::ControlFlow;

// The edge point of a round, and how far it has moved.
#[derive(Clone, Copy)]
pub struct Moved {
    pub point: Point2,
    pub drift: f64,
}

// Where the next round starts.
#[derive(Clone, Copy)]
pub struct Reached {
    pub point: Point2,
    pub drift: f64,
    pub units: u32,
}

// The camber line drawn on again, and how far the point has moved.
#[tactic(auto, unfolding(crate::specs::Rounds::moved_point))]
fn moved_point(circles: &CirclesInUse<'_>, gap: Gap, point: Point2) -> Result<Moved, Refusal>
    requires { 2 ≤ circles.now.count }
    ensures { result ≡ moved_point gap point (circles_of circles.now.store.now circles.now.count) }
{
    let next = crate::end_cap_intersection(last_pair(circles), gap)?;
    Ok(Moved {
        point: next,
        drift: points::dist(point, next)?,
    })
}

// What follows the refinement of a round: the fit is over, or another round may follow.
#[tactic(auto, unfolding(crate::specs::Rounds::after_refined, crate::specs::Rounds::after_move))]
fn after_refined(
    circles: &CirclesInUse<'_>,
    gap: Gap,
    point: Point2,
    end: RunEnd<()>,
    units: u32,
) -> ControlFlow<Run<Point2>, Reached>
    requires { 2 ≤ circles.now.count }
    ensures round { round_in circles.now.store.now circles.now.count result ≡ after_refined gap point (circles_of circles.now.store.now circles.now.count) units (listed_end end) }
    ensures count { round_count circles.now.count result ≡ circles.now.count }
{
    match end {
        RunEnd::Finished(()) => match moved_point(circles, gap, point) {
            Ok(moved) => ControlFlow::Continue(Reached {
                point: moved.point,
                drift: moved.drift,
                units,
            }),
            Err(r) => ControlFlow::Break(Run::refused(r, circles.count, units)),
        },
        RunEnd::Spent => ControlFlow::Break(Run::spent(circles.count, units)),
        RunEnd::Refused(r) => ControlFlow::Break(Run::refused(r, circles.count, units)),
    }
}

// One round: a probe halfway into the gap, a refinement up to its circle, and the camber line drawn on again.
pub(crate) fn round(
    section: &Curve2<'_>,
    tol: f64,
    circles: &mut CirclesStore<'_>,
    gap: Gap,
    point: Point2,
    units: Units,
) -> ControlFlow<Run<Point2>, Reached>
    requires { 2 ≤ circles.old.count }
    ensures { Rounded (round section.now.points.now tol circles.old.slots (under_limit units.limit) gap point (in_use circles.old) units.taken) circles.old circles.new result }
{
    let end = last_pair(&circles.in_use());
    match probe::probe(section, tol, gap, end) {
        Ok(Some(c)) => {
            let ran = refine::checked::refine(section, tol, circles, c, units);
            after_refined(&circles.in_use(), gap, point, ran.end, ran.units)
        }
        Ok(None) => ControlFlow::Break(Run::finished(point, circles.count, units.taken)),
        Err(r) => ControlFlow::Break(Run::refused(r, circles.count, units.taken)),
    }
}
