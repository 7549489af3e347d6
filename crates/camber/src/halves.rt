// The second half of an extraction: a march into the part of the store behind the circles of the first.
ghost use Rattle.std.specs.Prelude.{◌≡◌, ◌-◌, ◌*◌, ◌≤◌, [], ◌∷◌, drop};
ghost use Rattle.runs.specs.Run.{under_limit};
ghost use Rattle.inscribed.specs.Store.{width};
ghost use Rattle.inscribed.specs.Changes.{SameStore, in_use};
ghost use Rattle.refine.specs.Report.{listed_run, reported};
ghost use Rattle.camber.specs.Extraction.{second_half, part_report};
ghost use Rattle.refine.specs.Machine.{refining};
ghost use Rattle.camber.specs.March.{march_run};

use crate::march::march_from;
use curve2::checked::Curve2;
use inscribed::Inscribed;
use inscribed::checked::CirclesStore;
use inscribed::store::WIDTH;
use line2::Line2;
use refine::Run;
use runs::Units;

// The march into the part of a store that starts behind its circles, with the slots that are left.
fn march_behind(
    section: &Curve2<'_>,
    tol: f64,
    circles: &mut CirclesStore<'_>,
    circle: Inscribed,
    units: Units,
) -> Run<()>
    ensures run { listed_run result circles.new.store.now ≡ part_report circles.old.count circles.old.store.now (reported (drop (circles.old.count * width) circles.old.store.now) (march_run section.now.points.now tol (circles.old.slots - circles.old.count) (under_limit units.limit) (refining [] (circle ∷ [])) units.taken)) }
    ensures same { SameStore circles.old circles.new × (circles.new.count ≡ result.count) }
{
    let k = circles.count;
    let slots = circles.slots - k;
    let whole = &mut *circles.store;
    let (_, store) = whole.split_at_mut(k * WIDTH);
    let mut rest = CirclesStore {
        store,
        slots,
        count: 0,
    };
    let ran = march_from(section, tol, &mut rest, circle, units);
    circles.count += ran.count;
    Run {
        count: circles.count,
        ..ran
    }
}

// After a finished march: turn its circles, drop the last, march from the reversed line behind them.
#[tactic(auto, unfolding(crate::specs::Extraction::second_half, crate::specs::Extraction::second_march))]
pub(crate) fn second_half(
    section: &Curve2<'_>,
    tol: f64,
    line: Line2,
    circles: &mut CirclesStore<'_>,
    units: Units,
) -> Run<()>
    ensures run { listed_run result circles.new.store.now ≡ second_half section.now.points.now tol line circles.old.slots (under_limit units.limit) circles.old.store.now (in_use circles.old) units.taken }
    ensures same { SameStore circles.old circles.new × (circles.new.count ≡ result.count) }
{
    circles.reverse_order();
    circles.count = circles.count.saturating_sub(1);
    match halving::checked::inscribed_on(section, tol, line.reversed()) {
        Ok(circle) => march_behind(section, tol, circles, circle, units),
        Err(r) => Run::refused(r, circles.count, units.taken),
    }
}
