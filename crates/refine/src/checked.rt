// The run of `refine_and_push` on a section and a store that passed the entry tests, counted in units.
ghost use Rattle.std.specs.Prelude.{[], ◌∷◌, ◌≡◌, ◌≤◌, ◌<◌, length, reverse};
ghost use Rattle.runs.specs.Run.{ended, spent, under_limit};
ghost use Rattle.inscribed.specs.Changes.{in_use};
ghost use Rattle.inscribed.specs.Store.{circles_of};
ghost use Rattle.refine.specs.Machine.{most_waiting, finished, refine_run};
ghost use Rattle.refine.specs.Report.{listed_end};
ghost use Rattle.refine.specs.Offers.{offers_run};
ghost use Rattle.refine.specs.Code.{Reports, waiting_in};

use crate::{MOST_WAITING, Run, RunEnd, moves};
use arrayvec::ArrayVec;
use curve2::checked::Curve2;
use errors::Refusal;
use inscribed::Inscribed;
use inscribed::checked::{CirclesInUse, CirclesStore};
use runs::Units;

/// Refines a store that holds one circle at least, while any waits: the newest is tried against the last. Where the run is spent, those that still wait are left, the tried one among them.
pub fn refine_waiting(
    section: &Curve2<'_>,
    tol: f64,
    circles: &mut CirclesStore<'_>,
    waiting: &mut ArrayVec<Inscribed, MOST_WAITING>,
    units: Units,
) -> Run<()>
    requires some { 0 < circles.old.count }
    requires few { length waiting.old.items ≤ most_waiting }
    ensures run { Reports result circles.old circles.new (refine_run section.now.points.now tol circles.old.slots (under_limit units.limit) (in_use circles.old) (reverse waiting.old.items) units.taken) }
    ensures none_left { listed_end result.end ≡ ended finished → waiting.new.items ≡ [] }
    ensures waits { listed_end result.end ≡ spent → reverse waiting.new.items ≡ waiting_in (refine_run section.now.points.now tol circles.old.slots (under_limit units.limit) (in_use circles.old) (reverse waiting.old.items) units.taken).state }
{
    let mut u = units;
    while let Some(top) = waiting.pop() {
        match u.take() {
            Some(more) => u = more,
            None => {
                waiting.push(top);
                return Run::spent(circles.count, u.taken);
            }
        }
        let last = circles.last();
        match moves::tried(section, tol, circles, waiting.len() + 1, last, top) {
            Ok(Some(added)) => {
                waiting.push(top);
                waiting.push(added);
            }
            Ok(None) => circles.push(top),
            Err(r) => return Run::refused(r, circles.count, u.taken),
        }
    }
    Run::finished((), circles.count, u.taken)
}

// Offers a circle to a store that holds one at least: it waits alone.
fn refine_behind(
    section: &Curve2<'_>,
    tol: f64,
    circles: &mut CirclesStore<'_>,
    circle: Inscribed,
    units: Units,
) -> Run<()>
    requires { 0 < circles.old.count }
    ensures { Reports result circles.old circles.new (refine_run section.now.points.now tol circles.old.slots (under_limit units.limit) (in_use circles.old) (circle ∷ []) units.taken) }
{
    let mut waiting: ArrayVec<Inscribed, MOST_WAITING> = ArrayVec::new();
    waiting.push(circle);
    refine_waiting(section, tol, circles, &mut waiting, units)
}

/// Offers a circle to the circles in a store of a checked section, with the units taken before. An empty store accepts it without a trial.
pub fn refine(
    section: &Curve2<'_>,
    tol: f64,
    circles: &mut CirclesStore<'_>,
    circle: Inscribed,
    units: Units,
) -> Run<()>
    ensures { Reports result circles.old circles.new (refine_run section.now.points.now tol circles.old.slots (under_limit units.limit) (in_use circles.old) (circle ∷ []) units.taken) }
{
    if 0 < circles.count {
        refine_behind(section, tol, circles, circle, units)
    } else if circles.slots == 0 {
        Run::refused(Refusal::StoreFull, circles.count, units.taken)
    } else {
        circles.push(circle);
        Run::finished((), 1, units.taken)
    }
}

/// Offers the circles of a list in order, each refined until none waits, with the units taken before.
pub fn refine_all(
    section: &Curve2<'_>,
    tol: f64,
    circles: &mut CirclesStore<'_>,
    offered: &CirclesInUse<'_>,
    units: Units,
) -> Run<()>
    ensures { Reports result circles.old circles.new (offers_run section.now.points.now tol circles.old.slots (under_limit units.limit) (in_use circles.old) (circles_of offered.now.store.now offered.now.count) units.taken) }
{
    let limit = units.limit;
    let mut taken = units.taken;
    for k in 0..offered.count {
        let ran = refine(section, tol, circles, offered.at(k), Units { limit, taken });
        let RunEnd::Finished(()) = ran.end else {
            return ran;
        };
        taken = ran.units;
    }
    Run::finished((), circles.count, taken)
}
