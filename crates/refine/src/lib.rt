// Refinement: `refine_and_push` as a run counted in units, within a limit. A list of circles is offered in `offers`, the circles of a store are thinned in `thinning`, and `laws` has what holds of all three.
#![tactic(auto)]

pub mod checked;
pub mod laws;
mod moves;
pub mod offers;
pub mod thinning;

ghost use Rattle.curve2.specs.Lent.{IsLent};
ghost use Rattle.errors.specs.Answer.{passed};
ghost use Rattle.std.specs.Prelude.{◌≡◌, ◌≤◌, ◌||◌, List, Float};
ghost use Rattle.inscribed.specs.Store.{bad_circle, bad_store_within, most_slots, cell_slots};
ghost use Rattle.refine.specs.Report.{ending_number, called_number, listed_end, listed_called};
ghost use Rattle.refine.specs.Refinement.{refine_entry, refine_of};

use curve2::checked::Curve2;
use curve2::{AlsoBad, entering};
use errors::Refusal;
use inscribed::Inscribed;
use inscribed::checked::CirclesStore;
use inscribed::store::{CELL_SLOTS, MOST_SLOTS};
use runs::Units;

// How many circles may wait in a refinement.
pub const MOST_WAITING: usize = 64;

// How a run ends: with its result, spent, or refused. Of these three endings spent is no refusal, so this is no `Result`; and as a refusal goes up with a count and units, it goes up in a `Run` and not by `?`.
#[derive(Clone, Copy)]
pub enum RunEnd<T> {
    Finished(T),
    // One more unit is wanted than the limit: 14.
    Spent,
    Refused(Refusal),
}

// What a run returns: its ending, the count of circles in the store, and the units taken.
#[derive(Clone, Copy)]
pub struct Run<T> {
    pub end: RunEnd<T>,
    pub count: usize,
    pub units: u32,
}

impl<T> Run<T> {
    // A run that ends with its result.
    pub fn finished(value: T, count: usize, units: u32) -> Run<T>
        ensures { result ≡ record { end = RunEnd.Finished value; count = count; units = units } }
    {
        Run {
            end: RunEnd::Finished(value),
            count,
            units,
        }
    }

    // A run that is spent.
    pub fn spent(count: usize, units: u32) -> Run<T>
        ensures { result ≡ record { end = RunEnd.Spent; count = count; units = units } }
    {
        Run {
            end: RunEnd::Spent,
            count,
            units,
        }
    }

    // A run that ends in a refusal.
    pub fn refused(r: Refusal, count: usize, units: u32) -> Run<T>
        ensures { result ≡ record { end = RunEnd.Refused r; count = count; units = units } }
    {
        Run {
            end: RunEnd::Refused(r),
            count,
            units,
        }
    }
}

// The number of an ending: 0 for a result, 14 for a spent run.
impl<T: Copy> From<RunEnd<T>> for u32 {
    ghost from_gives = { λ end n. n ≡ ending_number (listed_end end) };

    fn from(end: RunEnd<T>) -> u32 {
        match end {
            RunEnd::Finished(_) => 0,
            RunEnd::Spent => 14,
            RunEnd::Refused(r) => u32::from(r),
        }
    }
}

// The number of what a run's call returns: 0 for a result. It is no `From`, since a crate can't write that for a `Result`.
pub fn number<T: Copy>(answer: Result<Run<T>, Refusal>) -> u32
    ensures { (store : List Float) → result ≡ called_number (listed_called answer store) }
{
    match answer {
        Ok(run) => u32::from(run.end),
        Err(r) => u32::from(r),
    }
}

// Test 2 of the circles handed in: those in use of a store that has no more slots than `slot_limit`, and the one offered.
fn has_bad_number(store: &[f64], slot_limit: usize, count: usize, circle: Inscribed) -> bool
    ensures { result ≡ (bad_store_within slot_limit store.now count || bad_circle circle) }
{
    inscribed::store::has_bad_within(store, slot_limit, count)
        || inscribed::store::is_bad_circle(circle)
}

// The entry tests of a refinement.
#[tactic(auto, unfolding(crate::specs::Refinement::refine_entry))]
fn entered<'a>(
    section: &'a [f64],
    section_tol: f64,
    tol: f64,
    store: &[f64],
    slot_limit: usize,
    count: usize,
    circle: Inscribed,
) -> Result<Curve2<'a>, Refusal>
    ensures entry { passed result ≡ refine_entry (record { section = section.now; section_tol = section_tol; tol = tol; store = store.now; count = count; slot_limit = slot_limit; circle = circle }) }
    ensures lent { IsLent section.now section_tol result }
{
    let also = AlsoBad {
        number: has_bad_number(store, slot_limit, count, circle),
        tolerance: entering::is_bad_general(tol),
        finer: entering::is_finer_general(section_tol, tol),
        room: inscribed::store::is_bad_count_within(store, slot_limit, count),
        state: false,
    };
    entering::section_entry(section, section_tol, also)
}

// A refinement into a store that has no more slots than `slot_limit`: what both entries call.
#[tactic(auto, unfolding(crate::specs::Refinement::refinement))]
fn refine_with_slots(
    section: &[f64],
    section_tol: f64,
    tol: f64,
    store: &mut [f64],
    slot_limit: usize,
    count: usize,
    circle: Inscribed,
    limit: u32,
) -> Result<Run<()>, Refusal>
    requires { slot_limit ≤ most_slots }
    ensures { listed_called result store.new ≡ refine_of (record { section = section.now; section_tol = section_tol; tol = tol; store = store.old; count = count; slot_limit = slot_limit; circle = circle }) limit }
{
    let curve = entered(section, section_tol, tol, store, slot_limit, count, circle)?;
    let mut circles = CirclesStore::with_slot_limit(store, slot_limit, count);
    Ok(checked::refine(&curve, tol, &mut circles, circle, Units::none_taken(limit)))
}

/// Offers a circle to a store that holds `count`, and refines until none waits, within a limit of units. The store holds 1,024 circles at most.
///
/// Refused on entry, with the store untouched: 1, 2, 3, 23, 4, 6. Refused later, or spent (14): the store keeps the circles that it accepted.
pub fn refine_and_push(
    section: &[f64],
    section_tol: f64,
    tol: f64,
    store: &mut [f64],
    count: usize,
    circle: Inscribed,
    limit: u32,
) -> Result<Run<()>, Refusal>
    ensures { listed_called result store.new ≡ refine_of (record { section = section.now; section_tol = section_tol; tol = tol; store = store.old; count = count; slot_limit = most_slots; circle = circle }) limit }
{
    refine_with_slots(
        section,
        section_tol,
        tol,
        store,
        MOST_SLOTS,
        count,
        circle,
        limit,
    )
}

/// `refine_and_push` for the cell, whose program has slots for 256: the store holds 256 circles at most, however long it is, in the tests of 2 and 4 too.
///
/// Refused on entry, with the store untouched: 1, 2, 3, 23, 4, 6; 4 is a count above 256 too. Refused later (15 for a 257th circle), or spent (14): the store keeps the circles that it accepted.
pub fn refine_and_push_cell(
    section: &[f64],
    section_tol: f64,
    tol: f64,
    store: &mut [f64],
    count: usize,
    circle: Inscribed,
    limit: u32,
) -> Result<Run<()>, Refusal>
    ensures { listed_called result store.new ≡ refine_of (record { section = section.now; section_tol = section_tol; tol = tol; store = store.old; count = count; slot_limit = cell_slots; circle = circle }) limit }
{
    refine_with_slots(
        section,
        section_tol,
        tol,
        store,
        CELL_SLOTS,
        count,
        circle,
        limit,
    )
}
