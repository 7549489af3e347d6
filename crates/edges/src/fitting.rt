// The fit of the open edge, of a section and a store that passed the entry tests: where it starts, the fit at the end of the last circles, and the order turned at the front and turned back.
ghost use Rattle.std.specs.Prelude.{◌≡◌};
ghost use Rattle.runs.specs.Run.{under_limit};
ghost use Rattle.inscribed.specs.Store.{circles_of, stored};
ghost use Rattle.inscribed.specs.Changes.{Becomes, SameStore, in_use};
ghost use Rattle.refine.specs.Report.{listed_run};
ghost use Rattle.gap.specs.Code.{Fits};
ghost use Rattle.edges.specs.Edges.{end_last, start_at_end, fit_start, fit_from, fitted};

use curve2::checked::Curve2;
use errors::Refusal;
use gap::Gap;
use inscribed::checked::{CirclesInUse, CirclesStore};
use lists::checked::last_pair;
use lists::ends;
use lists::ends::Pair;
use points::Point2;
use refine::Run;

// Where the rounds of a fit start: the gap, and the first point on it.
#[derive(Clone, Copy)]
pub struct Start {
    pub gap: Gap,
    pub point: Point2,
}

// The first point of the fit, from the last two circles on: the clip line is worked out before 17 is asked.
#[tactic(auto, unfolding(crate::specs::Edges::start_at_end))]
fn start_of(section: &Curve2<'_>, end: Pair) -> Result<Start, Refusal>
    ensures { result ≡ start_at_end section.now.points.now section.now.tol end }
{
    ends::clip_line(end)?;
    let gap = gap::checked::open_gap_segment(section)?;
    let point = gap::end_cap_intersection(end, gap)?;
    Ok(Start { gap, point })
}

// Where the rounds start: 7 where the store holds fewer than two circles.
#[tactic(auto, unfolding(crate::specs::Edges::fit_start))]
fn fit_start(section: &Curve2<'_>, circles: &CirclesInUse<'_>) -> Result<Start, Refusal>
    ensures { result ≡ fit_start section.now.points.now section.now.tol (circles_of circles.now.store.now circles.now.count) }
{
    if circles.count < 2 {
        return Err(Refusal::TooFewCircles);
    }
    start_of(section, last_pair(circles))
}

// The fit at the end of the last circles.
#[tactic(auto, unfolding(crate::specs::Edges::fit_from))]
fn fit_at_back(
    section: &Curve2<'_>,
    tol: f64,
    circles: &mut CirclesStore<'_>,
    limit: u32,
) -> Run<Point2>
    ensures { Fits (fit_from section.now.points.now tol circles.old.slots (under_limit limit) (in_use circles.old) (fit_start section.now.points.now section.now.tol (in_use circles.old))) circles.old circles.new result }
{
    match fit_start(section, &circles.in_use()) {
        Ok(start) => gap::checked::rounds(section, tol, circles, start.gap, start.point, limit),
        Err(r) => Run::refused(r, circles.count, 0),
    }
}

// Turns the order of the circles, where the front is meant.
fn turn(circles: &mut CirclesStore<'_>, at_front: bool)
    ensures { Becomes circles.old circles.new (stored (end_last at_front (in_use circles.old)) circles.old.store.now) circles.old.count }
{
    if at_front {
        circles.reverse_order_only();
    }
}

// The fit of a section and a store that passed the entry tests: turned at the front, and turned back.
pub(crate) fn fit(
    section: &Curve2<'_>,
    tol: f64,
    circles: &mut CirclesStore<'_>,
    at_front: bool,
    limit: u32,
) -> Run<Point2>
    ensures fit { listed_run result circles.new.store.now ≡ fitted section.now.points.now section.now.tol tol circles.old.slots (under_limit limit) at_front circles.old.store.now circles.old.count }
    ensures same { SameStore circles.old circles.new × (circles.new.count ≡ result.count) }
{
    turn(circles, at_front);
    let fit = fit_at_back(section, tol, circles, limit);
    turn(circles, at_front);
    fit
}
