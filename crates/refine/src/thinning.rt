//! A finished march thinned in its store: first it is decided which circles are kept, and only then do they move,
//! so that a run which is spent or refused has changed nothing.
ghost use Rattle.std.specs.Prelude.{◌≡◌, [], ◌≤◌, length};
ghost use Rattle.curve2.specs.Lent.{IsLent};
ghost use Rattle.errors.specs.Answer.{passed};
ghost use Rattle.runs.specs.Run.{under_limit};
ghost use Rattle.inscribed.specs.Store.{circles_of};
ghost use Rattle.inscribed.specs.Changes.{SameStore, Becomes, in_use};
ghost use Rattle.refine.specs.Report.{listed_run, listed_called};
ghost use Rattle.refine.specs.Thinning.{thin_run, with_kept, thin_report, thin_entry, thin_of};
ghost use Rattle.refine.specs.Code.{kept_from, Decides};

use crate::{Run, RunEnd};
use arrayvec::ArrayVec;
use curve2::checked::Curve2;
use curve2::{AlsoBad, entering};
use errors::Refusal;
use inscribed::checked::{CirclesInUse, CirclesStore, circle_at, put_circle};
use inscribed::store::{MOST_SLOTS, WIDTH};
use runs::Units;

// Which of the circles in use are kept, from the front: one between the first and the last isn't kept
// where the trial of the circle behind it against the last kept one adds nothing.
fn decide(
    section: &Curve2<'_>,
    tol: f64,
    circles: &CirclesInUse<'_>,
    limit: u32,
    kept: &mut ArrayVec<bool, MOST_SLOTS>,
) -> Run<()>
    requires none { kept.old.items ≡ [] }
    requires two { 2 ≤ circles.now.count }
    ensures { Decides circles.now.store.now circles.now.count kept.new.items result
        (thin_run section.now.points.now tol (under_limit limit) (circles_of circles.now.store.now circles.now.count)) }
{
    let count = circles.count;
    let mut u = Units::none_taken(limit);
    kept.push(true);
    let mut last = circles.at(0);
    for k in 1..count - 1 {
        match u.take() {
            Some(more) => u = more,
            None => return Run::spent(count, u.taken),
        }
        let next = circles.at(k + 1);
        let added = match circles::checked::inscribed_refined(section, tol, last, next) {
            Ok(added) => added,
            Err(r) => return Run::refused(r, count, u.taken),
        };
        let keeps = added.is_some();
        kept.push(keeps);
        if keeps {
            last = circles.at(k);
        }
    }
    kept.push(true);
    Run::finished((), count, u.taken)
}

// The kept circles move up, and each number of a slot that is freed becomes +0.
fn move_up(circles: &mut CirclesStore<'_>, kept: &[bool])
    requires { length kept.now ≡ circles.old.count }
    ensures { Becomes circles.old circles.new
        (with_kept (kept_from circles.old.store.now 0 kept.now) circles.old.count circles.old.store.now)
        (length (kept_from circles.old.store.now 0 kept.now)) }
{
    let count = circles.count;
    let store = &mut *circles.store;
    let mut free = 0;
    for k in 0..count {
        if kept[k] {
            let circle = circle_at(store, k);
            put_circle(store, free, circle);
            free += 1;
        }
    }
    store[free * WIDTH..count * WIDTH].fill(0.0);
    circles.count = free;
}

// The run of a thinning on a section and a store that passed the entry tests. Under two circles nothing happens.
fn thin(section: &Curve2<'_>, tol: f64, circles: &mut CirclesStore<'_>, limit: u32) -> Run<()>
    ensures { (listed_run result circles.new.store.now
        ≡ thin_report circles.old.store.now circles.old.count (thin_run section.now.points.now tol (under_limit limit) (in_use circles.old)))
        × SameStore circles.old circles.new }
{
    if circles.count < 2 {
        return Run::finished((), circles.count, 0);
    }
    let mut kept: ArrayVec<bool, MOST_SLOTS> = ArrayVec::new();
    let run = decide(section, tol, &circles.in_use(), limit, &mut kept);
    let RunEnd::Finished(()) = run.end else {
        return run;
    };
    move_up(circles, kept.as_slice());
    Run::finished((), circles.count, run.units)
}

// The entry tests of a thinning: a refinement's, without the offered circle.
#[tactic(auto, unfolding(crate::specs::Thinning::thin_entry))]
fn entered<'a>(
    section: &'a [f64],
    section_tol: f64,
    tol: f64,
    store: &[f64],
    count: usize,
) -> Result<Curve2<'a>, Refusal>
    ensures entry { passed result ≡ thin_entry (record { section = section.now; section_tol = section_tol; tol = tol; store = store.now; count = count }) }
    ensures lent { IsLent section.now section_tol result }
{
    let also = AlsoBad {
        number: inscribed::store::has_bad_circle(store, count),
        tolerance: entering::is_bad_general(tol),
        finer: entering::is_finer_general(section_tol, tol),
        room: inscribed::store::is_bad_store_count(store, count),
        state: false,
    };
    entering::section_entry(section, section_tol, also)
}

/// Thins the circles of a store that holds `count`, within a limit of units, one to a trial. A circle between the first and the last is
/// dropped where the trial of the circle behind it against the last kept one adds nothing. Kept circles move up, and the slots that they
/// free become zero. The store holds 1,024 circles at most.
///
/// Refused on entry: 1, 2, 3, 23, 4, 6. Refused in a trial: 10, 11, 12. Wherever it is refused, or spent (14), the whole store is as it
/// was; a refusal in a trial and 14 come with the stated count and the units taken.
#[tactic(auto, unfolding(crate::specs::Thinning::thinned))]
pub fn thin_circles(
    section: &[f64],
    section_tol: f64,
    tol: f64,
    store: &mut [f64],
    count: usize,
    limit: u32,
) -> Result<Run<()>, Refusal>
    ensures { listed_called result store.new
        ≡ thin_of (record { section = section.now; section_tol = section_tol; tol = tol; store = store.old; count = count }) limit }
{
    let curve = entered(section, section_tol, tol, store, count)?;
    let mut circles = CirclesStore::new(store, count);
    Ok(thin(&curve, tol, &mut circles, limit))
}
