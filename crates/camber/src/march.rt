// One march, `extract_half_circles`: refinements and advances by turns.
ghost use Rattle.curve2.specs.Lent.{IsLent};
ghost use Rattle.errors.specs.Answer.{passed};
ghost use Rattle.std.specs.Prelude.{◌≡◌, List, [], ◌∷◌, ◌≤◌, ◌<◌, length, reverse, Float};
ghost use Rattle.curve2.specs.Entry.{finer_general};
ghost use Rattle.runs.specs.Run.{ended, spent, under_limit};
ghost use Rattle.inscribed.specs.Changes.{in_use};
ghost use Rattle.inscribed.specs.Store.{most_slots, cell_slots};
ghost use Rattle.refine.specs.Machine.{most_waiting, refining};
ghost use Rattle.refine.specs.Report.{listed_end, listed_run, listed_called};
ghost use Rattle.refine.specs.Code.{Reports, waiting_in, due_in};
ghost use Rattle.halving.specs.Halving.{from_crossing};
ghost use Rattle.circles.specs.Asked.{line_entry};
ghost use Rattle.camber.specs.Code.{state_at, Idle, started_told};
ghost use Rattle.camber.specs.Going.{told_of, listed_going};
ghost use Rattle.camber.specs.March.{march_run, started_run, march_told, listed_march};

use crate::going::GoneOn;
use crate::state;
use crate::state::MarchState;
use advance::Advanced;
use arrayvec::ArrayVec;
use curve2::checked::Curve2;
use curve2::entering;
use errors::Refusal;
use inscribed::Inscribed;
use inscribed::checked::CirclesStore;
use inscribed::store::{CELL_SLOTS, MOST_SLOTS};
use line2::Line2;
use queries::{Crossing, HitEdges};
use refine::{MOST_WAITING, Run, RunEnd};
use runs::Units;

/// A march that began: how it ended, the edges that its start hit, and its state where it is spent.
#[derive(Clone, Copy)]
pub struct MarchRun {
    pub run: Run<()>,
    pub edges: Option<HitEdges>,
    pub state: Option<MarchState>,
}

/// The run of a march, without its edges and its state.
pub fn called(answer: Result<MarchRun, Refusal>) -> Result<Run<()>, Refusal>
    ensures { (store : List Float) → listed_called result store ≡ (listed_march answer store).called }
{
    Ok(answer?.run)
}

// The entry tests of a march or an extraction, which are held to 23.
pub(crate) fn entered(
    section: &[f64],
    section_tol: f64,
    tol: f64,
    line: Line2,
) -> Result<Curve2<'_>, Refusal>
    ensures entry { passed result ≡ line_entry section.now section_tol tol line (finer_general section_tol tol) }
    ensures lent { IsLent section.now section_tol result }
{
    let finer = entering::is_finer_general(section_tol, tol);
    circles::line_entry(section, section_tol, tol, line, finer)
}

// A run that ended by itself.
fn ended(end: Result<(), Refusal>, count: usize, units: u32) -> Run<()>
    ensures { (store : List Float) → listed_run result store ≡ record { ending = ended end; count = count; units = units; store = store } }
{
    match end {
        Ok(()) => Run::finished((), count, units),
        Err(r) => Run::refused(r, count, units),
    }
}

// The march on a checked section from a state on: refinements of those that wait, and advances from the fraction that is due, by turns. Where it is spent, those that wait and the fraction that is due are left.
pub(crate) fn go_on_from(
    section: &Curve2<'_>,
    tol: f64,
    circles: &mut CirclesStore<'_>,
    waiting: &mut ArrayVec<Inscribed, MOST_WAITING>,
    due: &mut usize,
    units: Units,
) -> Run<()>
    requires some { 0 < circles.old.count }
    requires few { length waiting.old.items ≤ most_waiting }
    requires fraction { due.old < 4 }
    requires idle { Idle (reverse waiting.old.items) due.old }
    ensures run { Reports result circles.old circles.new (march_run section.now.points.now tol circles.old.slots (under_limit units.limit) (state_at (in_use circles.old) (reverse waiting.old.items) due.old) units.taken) }
    ensures paused { let o = march_run section.now.points.now tol circles.old.slots (under_limit units.limit) (state_at (in_use circles.old) (reverse waiting.old.items) due.old) units.taken in listed_end result.end ≡ spent → (reverse waiting.new.items ≡ waiting_in o.state) × (due.new ≡ due_in o.state) }
{
    let limit = units.limit;
    let mut taken = units.taken;
    // It ends, since each turn accepts a circle, but for a first one where none waits; nothing is counted here.
    loop {
        let ran = refine::checked::refine_waiting(
            section,
            tol,
            circles,
            waiting,
            Units { limit, taken },
        );
        let RunEnd::Finished(()) = ran.end else {
            return ran;
        };
        let units = Units {
            limit,
            taken: ran.units,
        };
        match advance::checked::advance(section, tol, circles.last(), *due, units) {
            Advanced::Ended(end, u) => return ended(end, circles.count, u),
            Advanced::Spent(k, u) => {
                *due = k;
                return Run::spent(circles.count, u);
            }
            Advanced::Next(d, u) => {
                waiting.push(d);
                *due = 0;
                taken = u;
            }
        }
    }
}

// The march on a checked section from its first circle on, into a store that holds none, with the units taken before. Where it is spent, those that wait and the fraction that is due are left.
fn march_first(
    section: &Curve2<'_>,
    tol: f64,
    circles: &mut CirclesStore<'_>,
    circle: Inscribed,
    waiting: &mut ArrayVec<Inscribed, MOST_WAITING>,
    due: &mut usize,
    units: Units,
) -> Run<()>
    requires none { circles.old.count ≡ 0 }
    requires idle { waiting.old.items ≡ [] }
    requires start { due.old ≡ 0 }
    ensures run { Reports result circles.old circles.new (march_run section.now.points.now tol circles.old.slots (under_limit units.limit) (refining [] (circle ∷ [])) units.taken) }
    ensures paused { let o = march_run section.now.points.now tol circles.old.slots (under_limit units.limit) (refining [] (circle ∷ [])) units.taken in listed_end result.end ≡ spent → (reverse waiting.new.items ≡ waiting_in o.state) × (due.new ≡ due_in o.state) }
{
    if circles.slots == 0 {
        return Run::refused(Refusal::StoreFull, circles.count, units.taken);
    }
    circles.push(circle);
    go_on_from(section, tol, circles, waiting, due, units)
}

// The same, where nothing goes on from it.
pub(crate) fn march_from(
    section: &Curve2<'_>,
    tol: f64,
    circles: &mut CirclesStore<'_>,
    circle: Inscribed,
    units: Units,
) -> Run<()>
    requires { circles.old.count ≡ 0 }
    ensures { Reports result circles.old circles.new (march_run section.now.points.now tol circles.old.slots (under_limit units.limit) (refining [] (circle ∷ [])) units.taken) }
{
    let mut waiting: ArrayVec<Inscribed, MOST_WAITING> = ArrayVec::new();
    let mut due = 0;
    march_first(section, tol, circles, circle, &mut waiting, &mut due, units)
}

// The march from its first circle on, into a store that has no more slots than `slot_limit`: the circle waits first.
fn march_started(
    section: &Curve2<'_>,
    tol: f64,
    circle: Inscribed,
    store: &mut [f64],
    slot_limit: usize,
    limit: u32,
) -> GoneOn
    requires { slot_limit ≤ most_slots }
    ensures { (section_tol : Float) (line : Line2) → listed_going (Ok result) store.new ≡ told_of store.old (started_run (record { section = section.now.points.now; section_tol = section_tol; tol = tol; line = line; store = store.old; slot_limit = slot_limit }) (under_limit limit) circle) }
{
    let mut circles = CirclesStore::with_slot_limit(store, slot_limit, 0);
    let mut waiting: ArrayVec<Inscribed, MOST_WAITING> = ArrayVec::new();
    let mut due = 0;
    let run = march_first(
        section,
        tol,
        &mut circles,
        circle,
        &mut waiting,
        &mut due,
        Units::none_taken(limit),
    );
    GoneOn {
        run,
        state: state::handed_out(run.end, due, &waiting),
    }
}

// The march from a crossing on, without its edges.
#[tactic(auto, unfolding(crate::specs::March::after_start, crate::specs::March::state_after))]
fn march_on(
    section: &Curve2<'_>,
    tol: f64,
    crossing: Crossing,
    store: &mut [f64],
    slot_limit: usize,
    limit: u32,
) -> GoneOn
    requires { slot_limit ≤ most_slots }
    ensures { (section_tol : Float) (line : Line2) → listed_going (Ok result) store.new ≡ started_told (record { section = section.now.points.now; section_tol = section_tol; tol = tol; line = line; store = store.old; slot_limit = slot_limit }) limit (from_crossing section.now.points.now tol crossing) }
{
    match halving::checked::from_crossing(section, tol, crossing) {
        Ok(c) => march_started(section, tol, c, store, slot_limit, limit),
        Err(refusal) => GoneOn {
            run: Run::refused(refusal, 0, 0),
            state: None,
        },
    }
}

// A march into a store that has no more slots than `slot_limit`: what both entries call.
#[tactic(auto, unfolding(crate::specs::March::march_after, halving::specs::Halving::inscribed_on, crate::specs::March::found_edges, crate::specs::March::after_start, crate::specs::March::state_after))]
fn march_with_slots(
    section: &[f64],
    section_tol: f64,
    tol: f64,
    line: Line2,
    store: &mut [f64],
    slot_limit: usize,
    limit: u32,
) -> Result<MarchRun, Refusal>
    requires { slot_limit ≤ most_slots }
    ensures { listed_march result store.new ≡ march_told (record { section = section.now; section_tol = section_tol; tol = tol; line = line; store = store.old; slot_limit = slot_limit }) limit }
{
    let curve = entered(section, section_tol, tol, line)?;
    match queries::asked(queries::checked::crossing_line(&curve, line)) {
        Ok(crossing) => {
            let on = march_on(&curve, tol, crossing, store, slot_limit, limit);
            Ok(MarchRun {
                run: on.run,
                edges: Some(crossing.edges),
                state: on.state,
            })
        }
        Err(r) => Ok(MarchRun {
            run: Run::refused(r, 0, 0),
            edges: None,
            state: None,
        }),
    }
}

/// One march from a line, into a store that holds no circle yet and 1,024 at most, within a limit of units; with the edges of the line's crossing once that is found, and the state that `going::go_on` goes on from where it is spent.
///
/// Refused on entry, with the store untouched: 1, 2, 3, 23, 6. Refused later, or spent (14): the store keeps the circles that it accepted.
pub fn march(
    section: &[f64],
    section_tol: f64,
    tol: f64,
    line: Line2,
    store: &mut [f64],
    limit: u32,
) -> Result<MarchRun, Refusal>
    ensures { listed_march result store.new ≡ march_told (record { section = section.now; section_tol = section_tol; tol = tol; line = line; store = store.old; slot_limit = most_slots }) limit }
{
    march_with_slots(section, section_tol, tol, line, store, MOST_SLOTS, limit)
}

/// `march` for the cell, whose program has slots for 256: the store holds 256 circles at most, however long it is. Where it is spent, `going::go_on_cell` goes on.
///
/// Refused on entry, with the store untouched: 1, 2, 3, 23, 6. Refused later (15 for a 257th circle), or spent (14): the store keeps the circles that it accepted.
pub fn march_cell(
    section: &[f64],
    section_tol: f64,
    tol: f64,
    line: Line2,
    store: &mut [f64],
    limit: u32,
) -> Result<MarchRun, Refusal>
    ensures { listed_march result store.new ≡ march_told (record { section = section.now; section_tol = section_tol; tol = tol; line = line; store = store.old; slot_limit = cell_slots }) limit }
{
    march_with_slots(section, section_tol, tol, line, store, CELL_SLOTS, limit)
}
