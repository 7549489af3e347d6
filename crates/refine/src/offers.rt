//! A list of circles offered in order, as planning hands one in after a changeover.
ghost use Rattle.curve2.specs.Lent.{IsLent};
ghost use Rattle.errors.specs.Answer.{passed};
ghost use Rattle.std.specs.Prelude.{◌≡◌, ◌≤◌, ◌||◌};
ghost use Rattle.inscribed.specs.Store.{bad_store, bad_store_count, bad_store_within, bad_count_within, most_slots, cell_slots};
ghost use Rattle.refine.specs.Report.{listed_called};
ghost use Rattle.refine.specs.Offers.{offers_entry, refine_all_of};

use crate::{Run, checked};
use curve2::checked::Curve2;
use curve2::{AlsoBad, entering};
use errors::Refusal;
use inscribed::checked::{CirclesInUse, CirclesStore};
use inscribed::store::{CELL_SLOTS, MOST_SLOTS};
use runs::Units;

// Tests 2 and 4 of the circles handed in: those in use of a store that has no more slots than `slot_limit`, and those of the list.
fn has_bad_number(
    store: &[f64],
    slot_limit: usize,
    count: usize,
    offered: &[f64],
    offered_count: usize,
) -> bool
    ensures { result ≡ (bad_store_within slot_limit store.now count || bad_store offered.now offered_count) }
{
    inscribed::store::has_bad_within(store, slot_limit, count)
        || inscribed::store::has_bad_circle(offered, offered_count)
}

fn has_no_room(
    store: &[f64],
    slot_limit: usize,
    count: usize,
    offered: &[f64],
    offered_count: usize,
) -> bool
    ensures { result ≡ (bad_count_within slot_limit store.now count || bad_store_count offered.now offered_count) }
{
    inscribed::store::is_bad_count_within(store, slot_limit, count)
        || inscribed::store::is_bad_store_count(offered, offered_count)
}

// The entry tests of a list that is offered.
#[tactic(auto, unfolding(crate::specs::Offers::offers_entry))]
fn entered<'a>(
    section: &'a [f64],
    section_tol: f64,
    tol: f64,
    store: &[f64],
    slot_limit: usize,
    count: usize,
    offered: &[f64],
    offered_count: usize,
) -> Result<Curve2<'a>, Refusal>
    ensures entry { passed result ≡ offers_entry (record { section = section.now; section_tol = section_tol; tol = tol; store = store.now; count = count; slot_limit = slot_limit; offered = offered.now; offered_count = offered_count }) }
    ensures lent { IsLent section.now section_tol result }
{
    let also = AlsoBad {
        number: has_bad_number(store, slot_limit, count, offered, offered_count),
        tolerance: entering::is_bad_general(tol),
        finer: entering::is_finer_general(section_tol, tol),
        room: has_no_room(store, slot_limit, count, offered, offered_count),
        state: false,
    };
    entering::section_entry(section, section_tol, also)
}

// A list offered to a store that has no more slots than `slot_limit`: what both entries call.
#[tactic(auto, unfolding(crate::specs::Offers::refinements))]
fn refine_all_with_slots(
    section: &[f64],
    section_tol: f64,
    tol: f64,
    store: &mut [f64],
    slot_limit: usize,
    count: usize,
    offered: &[f64],
    offered_count: usize,
    limit: u32,
) -> Result<Run<()>, Refusal>
    requires { slot_limit ≤ most_slots }
    ensures { listed_called result store.new ≡ refine_all_of (record { section = section.now; section_tol = section_tol; tol = tol; store = store.old; count = count; slot_limit = slot_limit; offered = offered.now; offered_count = offered_count }) limit }
{
    let curve = entered(
        section,
        section_tol,
        tol,
        store,
        slot_limit,
        count,
        offered,
        offered_count,
    )?;
    let list = CirclesInUse {
        store: offered,
        count: offered_count,
    };
    let mut circles = CirclesStore::with_slot_limit(store, slot_limit, count);
    Ok(checked::refine_all(&curve, tol, &mut circles, &list, Units::none_taken(limit)))
}

/// Offers the circles of a list in order to a store that holds `count`, each refined until none waits, within one limit of units over all. Of the list, a store of its own, the first `offered_count` circles are offered.
///
/// Refused on entry, with the store untouched: 1, 2, 3, 23, 4, 6; 2 and 4 test the list too: all circles that are offered, before the first of them. Refused later (10, 11, 12, 15, 16), or spent (14): the store keeps the circles that it accepted.
pub fn refine_all(
    section: &[f64],
    section_tol: f64,
    tol: f64,
    store: &mut [f64],
    count: usize,
    offered: &[f64],
    offered_count: usize,
    limit: u32,
) -> Result<Run<()>, Refusal>
    ensures { listed_called result store.new ≡ refine_all_of (record { section = section.now; section_tol = section_tol; tol = tol; store = store.old; count = count; slot_limit = most_slots; offered = offered.now; offered_count = offered_count }) limit }
{
    refine_all_with_slots(
        section,
        section_tol,
        tol,
        store,
        MOST_SLOTS,
        count,
        offered,
        offered_count,
        limit,
    )
}

/// `refine_all` for the cell: the store holds 256 circles at most. The list may hold up to 1,024.
///
/// Refused on entry, with the store untouched: 1, 2, 3, 23, 4, 6; 4 is a count above 256 too. Refused later (15 for a 257th circle), or spent (14): the store keeps the circles that it accepted.
pub fn refine_all_cell(
    section: &[f64],
    section_tol: f64,
    tol: f64,
    store: &mut [f64],
    count: usize,
    offered: &[f64],
    offered_count: usize,
    limit: u32,
) -> Result<Run<()>, Refusal>
    ensures { listed_called result store.new ≡ refine_all_of (record { section = section.now; section_tol = section_tol; tol = tol; store = store.old; count = count; slot_limit = cell_slots; offered = offered.now; offered_count = offered_count }) limit }
{
    refine_all_with_slots(
        section,
        section_tol,
        tol,
        store,
        CELL_SLOTS,
        count,
        offered,
        offered_count,
        limit,
    )
}
