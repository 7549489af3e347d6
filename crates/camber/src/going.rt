// A march that was spent goes on from the state that it handed out.
ghost use Rattle.curve2.specs.Lent.{IsLent};
ghost use Rattle.errors.specs.Answer.{passed};
ghost use Rattle.std.specs.Prelude.{◌≡◌, ◌≤◌, List, Float};
ghost use Rattle.runs.specs.Run.{under_limit};
ghost use Rattle.inscribed.specs.Store.{most_slots, cell_slots};
ghost use Rattle.refine.specs.Report.{listed_called};
ghost use Rattle.camber.specs.Going.{going_entry, going_of, listed_going};

use crate::march::go_on_from;
use crate::state;
use crate::state::MarchState;
use curve2::checked::Curve2;
use curve2::{AlsoBad, entering};
use errors::Refusal;
use inscribed::checked::CirclesStore;
use inscribed::store::{CELL_SLOTS, MOST_SLOTS};
use refine::Run;
use runs::Units;

/// A going on that began: how it ended, and its state where it is spent. The units are its own, without those of the march before it.
#[derive(Clone, Copy)]
pub struct GoneOn {
    pub run: Run<()>,
    pub state: Option<MarchState>,
}

/// The run of a going on, without its state.
pub fn called(answer: Result<GoneOn, Refusal>) -> Result<Run<()>, Refusal>
    ensures { (store : List Float) → listed_called result store ≡ (listed_going answer store).called }
{
    Ok(answer?.run)
}

// The entry tests of a going on.
#[tactic(auto, unfolding(crate::specs::Going::going_entry))]
fn entered<'a>(
    section: &'a [f64],
    section_tol: f64,
    tol: f64,
    store: &[f64],
    slot_limit: usize,
    count: usize,
    state: &MarchState,
) -> Result<Curve2<'a>, Refusal>
    ensures entry { passed result ≡ going_entry (record { section = section.now; section_tol = section_tol; tol = tol; store = store.now; count = count; slot_limit = slot_limit; state = state.now }) }
    ensures lent { IsLent section.now section_tol result }
{
    let also = AlsoBad {
        number: inscribed::store::has_bad_within(store, slot_limit, count),
        tolerance: entering::is_bad_general(tol),
        finer: entering::is_finer_general(section_tol, tol),
        room: inscribed::store::is_bad_count_within(store, slot_limit, count),
        state: state::is_bad_state(state, count),
    };
    entering::section_entry(section, section_tol, also)
}

// Goes on in a store that has no more slots than `slot_limit`: what both entries call.
#[tactic(auto, unfolding(crate::specs::Going::going_after))]
fn go_on_with_slots(
    section: &[f64],
    section_tol: f64,
    tol: f64,
    store: &mut [f64],
    slot_limit: usize,
    count: usize,
    state: &MarchState,
    limit: u32,
) -> Result<GoneOn, Refusal>
    requires { slot_limit ≤ most_slots }
    ensures { listed_going result store.new ≡ going_of (record { section = section.now; section_tol = section_tol; tol = tol; store = store.old; count = count; slot_limit = slot_limit; state = state.now }) limit }
{
    let curve = entered(section, section_tol, tol, store, slot_limit, count, state)?;
    let mut circles = CirclesStore::with_slot_limit(store, slot_limit, count);
    let mut waiting = state::circles_waiting(&state.waiting, state.count);
    let mut due = state::due_of(state);
    let run = go_on_from(
        &curve,
        tol,
        &mut circles,
        &mut waiting,
        &mut due,
        Units::none_taken(limit),
    );
    Ok(GoneOn {
        run,
        state: state::handed_out(run.end, due, &waiting),
    })
}

/// Goes on with a march, from the state that it handed out where it was spent, or a going on after it, in the store that it left with `count` circles, within a second limit of units. The store holds 1,024 circles at most.
///
/// With state, section, tolerances and store untouched, and after `march` or `go_on`, it leaves the ending and the store of a single march whose limit is the sum, and the units add up: `laws::pause_law`.
///
/// Refused on entry, with the store untouched: 1, 2, 3, 23, 4, 27, 6. Refused later, or spent (14): the store keeps the circles that it accepted.
pub fn go_on(
    section: &[f64],
    section_tol: f64,
    tol: f64,
    store: &mut [f64],
    count: usize,
    state: &MarchState,
    limit: u32,
) -> Result<GoneOn, Refusal>
    ensures { listed_going result store.new ≡ going_of (record { section = section.now; section_tol = section_tol; tol = tol; store = store.old; count = count; slot_limit = most_slots; state = state.now }) limit }
{
    go_on_with_slots(
        section,
        section_tol,
        tol,
        store,
        MOST_SLOTS,
        count,
        state,
        limit,
    )
}

/// `go_on` for the cell, by which a march of `march_cell` goes on: the store holds 256 circles at most, however long it is, in the tests of 2 and 4 too.
///
/// Refused on entry, with the store untouched: 1, 2, 3, 23, 4, 27, 6; 4 is a count above 256 too. Refused later (15 for a 257th circle), or spent (14): the store keeps the circles that it accepted.
pub fn go_on_cell(
    section: &[f64],
    section_tol: f64,
    tol: f64,
    store: &mut [f64],
    count: usize,
    state: &MarchState,
    limit: u32,
) -> Result<GoneOn, Refusal>
    ensures { listed_going result store.new ≡ going_of (record { section = section.now; section_tol = section_tol; tol = tol; store = store.old; count = count; slot_limit = cell_slots; state = state.now }) limit }
{
    go_on_with_slots(
        section,
        section_tol,
        tol,
        store,
        CELL_SLOTS,
        count,
        state,
        limit,
    )
}
