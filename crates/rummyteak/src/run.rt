// Runs within a limit of units.
ghost use Rattle.std.specs.Prelude.{◌≡◌};
ghost use Rattle.inscribed.specs.Store.{circle_at, most_slots, cell_slots};
ghost use Rattle.refine.specs.Refinement.{refine_of};
ghost use Rattle.refine.specs.Offers.{refine_all_of};
ghost use Rattle.refine.specs.Thinning.{thin_of};
ghost use Rattle.camber.specs.March.{march_of, march_told};
ghost use Rattle.camber.specs.Going.{going_of};
ghost use Rattle.camber.specs.Extraction.{extraction_of};
ghost use Rattle.rummyteak.specs.Told.{given_line, given_state, told_run, start_cells, start_left, state_left};

use crate::given::StateCells;
use crate::{given, telling};
use inscribed::store::WIDTH;

// A circle offered to a store that holds `stated`, refined within a limit of units.
pub fn rummyteak_refine_and_push(
    section: &[f64],
    section_tol: f64,
    tol: f64,
    store: &mut [f64],
    stated: usize,
    circle: &[f64; WIDTH],
    limit: u32,
    count: &mut usize,
    units: &mut u32,
) -> u32
    ensures { (record { number = result; count = count.new; units = units.new; store = store.new }) ≡ told_run count.old units.old (refine_of (record { section = section.now; section_tol = section_tol; tol = tol; store = store.old; count = stated; slot_limit = most_slots; circle = circle_at circle.now 0 }) limit) }
{
    let offered = given::circle_of(circle);
    telling::tell_run(
        refine::refine_and_push(section, section_tol, tol, store, stated, offered, limit),
        count,
        units,
    )
}

/// `rummyteak_refine_and_push` for the cell: the store holds 256 circles at most.
///
/// Refused on entry, with the store untouched: 1, 2, 3, 23, 4, 6; 4 is a count above 256 too. Refused later (15 for a 257th circle), or spent (14): the store keeps the circles that it accepted.
pub fn rummyteak_refine_and_push_cell(
    section: &[f64],
    section_tol: f64,
    tol: f64,
    store: &mut [f64],
    stated: usize,
    circle: &[f64; WIDTH],
    limit: u32,
    count: &mut usize,
    units: &mut u32,
) -> u32
    ensures { (record { number = result; count = count.new; units = units.new; store = store.new }) ≡ told_run count.old units.old (refine_of (record { section = section.now; section_tol = section_tol; tol = tol; store = store.old; count = stated; slot_limit = cell_slots; circle = circle_at circle.now 0 }) limit) }
{
    let offered = given::circle_of(circle);
    telling::tell_run(
        refine::refine_and_push_cell(section, section_tol, tol, store, stated, offered, limit),
        count,
        units,
    )
}

/// The circles of a store that holds `stated`, thinned within a limit of units: kept ones move up, and the slots that they free become zero.
///
/// Refused on entry, with nothing written: 1, 2, 3, 23, 4, 6. Refused in a trial (10, 11, 12), or spent (14): the whole store is as it was, and count and units are written.
pub fn rummyteak_thin(
    section: &[f64],
    section_tol: f64,
    tol: f64,
    store: &mut [f64],
    stated: usize,
    limit: u32,
    count: &mut usize,
    units: &mut u32,
) -> u32
    ensures { (record { number = result; count = count.new; units = units.new; store = store.new }) ≡ told_run count.old units.old (thin_of (record { section = section.now; section_tol = section_tol; tol = tol; store = store.old; count = stated }) limit) }
{
    telling::tell_run(
        refine::thinning::thin_circles(section, section_tol, tol, store, stated, limit),
        count,
        units,
    )
}

/// The first `offered_count` circles of a list, offered in order to a store that holds `stated`, within one limit of units over all.
///
/// Refused on entry, with the store untouched: 1, 2, 3, 23, 4, 6; 2 and 4 test the circles that are offered too. Refused later (10, 11, 12, 15, 16), or spent (14): the store keeps the circles that it accepted.
pub fn rummyteak_refine_all(
    section: &[f64],
    section_tol: f64,
    tol: f64,
    store: &mut [f64],
    stated: usize,
    offered: &[f64],
    offered_count: usize,
    limit: u32,
    count: &mut usize,
    units: &mut u32,
) -> u32
    ensures { (record { number = result; count = count.new; units = units.new; store = store.new }) ≡ told_run count.old units.old (refine_all_of (record { section = section.now; section_tol = section_tol; tol = tol; store = store.old; count = stated; slot_limit = most_slots; offered = offered.now; offered_count = offered_count }) limit) }
{
    telling::tell_run(
        refine::offers::refine_all(
            section,
            section_tol,
            tol,
            store,
            stated,
            offered,
            offered_count,
            limit,
        ),
        count,
        units,
    )
}

/// `rummyteak_refine_all` for the cell: the store holds 256 circles at most.
///
/// Refused on entry, with the store untouched: 1, 2, 3, 23, 4, 6; 4 is a count above 256 too. Refused later (15 for a 257th circle), or spent (14): the store keeps the circles that it accepted.
pub fn rummyteak_refine_all_cell(
    section: &[f64],
    section_tol: f64,
    tol: f64,
    store: &mut [f64],
    stated: usize,
    offered: &[f64],
    offered_count: usize,
    limit: u32,
    count: &mut usize,
    units: &mut u32,
) -> u32
    ensures { (record { number = result; count = count.new; units = units.new; store = store.new }) ≡ told_run count.old units.old (refine_all_of (record { section = section.now; section_tol = section_tol; tol = tol; store = store.old; count = stated; slot_limit = cell_slots; offered = offered.now; offered_count = offered_count }) limit) }
{
    telling::tell_run(
        refine::offers::refine_all_cell(
            section,
            section_tol,
            tol,
            store,
            stated,
            offered,
            offered_count,
            limit,
        ),
        count,
        units,
    )
}

/// The circles on one side of a line, within a limit of units; the edges of the line's crossing once that is found; and the state that `rummyteak_go_on` goes on from where the march is spent.
///
/// Refused on entry, with nothing written: 1, 2, 3, 23, 6. Refused later (8, 10, 11, 12, 13, 15, 16), or spent (14): the store keeps the circles that it accepted. The state is written with 14 alone.
pub fn rummyteak_march(
    section: &[f64],
    section_tol: f64,
    tol: f64,
    ox: f64,
    oy: f64,
    dx: f64,
    dy: f64,
    store: &mut [f64],
    limit: u32,
    count: &mut usize,
    units: &mut u32,
    edges: &mut [usize; 2],
    found: &mut bool,
    state: &mut StateCells,
) -> u32
    ensures store_after { (record { number = result; count = count.new; units = units.new; store = store.new }) ≡ told_run count.old units.old (march_of (record { section = section.now; section_tol = section_tol; tol = tol; line = given_line ox oy dx dy; store = store.old; slot_limit = most_slots }) limit) }
    ensures found_after { start_cells edges.new found.new ≡ start_left (start_cells edges.old found.old) (march_told (record { section = section.now; section_tol = section_tol; tol = tol; line = given_line ox oy dx dy; store = store.old; slot_limit = most_slots }) limit) }
    ensures state_after { state.new ≡ state_left state.old (march_told (record { section = section.now; section_tol = section_tol; tol = tol; line = given_line ox oy dx dy; store = store.old; slot_limit = most_slots }) limit).state }
{
    let line = given::line(ox, oy, dx, dy);
    let answer = camber::march::march(section, section_tol, tol, line, store, limit);
    telling::tell_edges(answer, edges, found);
    telling::tell_march_state(answer, state);
    telling::tell_run(camber::march::called(answer), count, units)
}

/// `rummyteak_march` for the cell: the store holds 256 circles at most. Where it is spent, `rummyteak_go_on_cell` goes on.
///
/// Refused on entry, with the store untouched: 1, 2, 3, 23, 6. Refused later (15 for a 257th circle), or spent (14): the store keeps the circles that it accepted.
pub fn rummyteak_march_cell(
    section: &[f64],
    section_tol: f64,
    tol: f64,
    ox: f64,
    oy: f64,
    dx: f64,
    dy: f64,
    store: &mut [f64],
    limit: u32,
    count: &mut usize,
    units: &mut u32,
    edges: &mut [usize; 2],
    found: &mut bool,
    state: &mut StateCells,
) -> u32
    ensures store_after { (record { number = result; count = count.new; units = units.new; store = store.new }) ≡ told_run count.old units.old (march_of (record { section = section.now; section_tol = section_tol; tol = tol; line = given_line ox oy dx dy; store = store.old; slot_limit = cell_slots }) limit) }
    ensures found_after { start_cells edges.new found.new ≡ start_left (start_cells edges.old found.old) (march_told (record { section = section.now; section_tol = section_tol; tol = tol; line = given_line ox oy dx dy; store = store.old; slot_limit = cell_slots }) limit) }
    ensures state_after { state.new ≡ state_left state.old (march_told (record { section = section.now; section_tol = section_tol; tol = tol; line = given_line ox oy dx dy; store = store.old; slot_limit = cell_slots }) limit).state }
{
    let line = given::line(ox, oy, dx, dy);
    let answer = camber::march::march_cell(section, section_tol, tol, line, store, limit);
    telling::tell_edges(answer, edges, found);
    telling::tell_march_state(answer, state);
    telling::tell_run(camber::march::called(answer), count, units)
}

/// Goes on with a march, from the state of a spent march or going on, in the store that it left with `stated` circles, within a second limit of units. The state is read, and written where this run is spent too.
///
/// Refused on entry, with nothing written: 1, 2, 3, 23, 4, 27, 6. Refused later (10, 11, 12, 13, 15, 16), or spent (14): the store keeps the circles that it accepted, and a spent one writes its state.
pub fn rummyteak_go_on(
    section: &[f64],
    section_tol: f64,
    tol: f64,
    store: &mut [f64],
    stated: usize,
    state: &mut StateCells,
    limit: u32,
    count: &mut usize,
    units: &mut u32,
) -> u32
    ensures store_after { (record { number = result; count = count.new; units = units.new; store = store.new }) ≡ told_run count.old units.old (going_of (record { section = section.now; section_tol = section_tol; tol = tol; store = store.old; count = stated; slot_limit = most_slots; state = given_state state.old }) limit).called }
    ensures state_after { state.new ≡ state_left state.old (going_of (record { section = section.now; section_tol = section_tol; tol = tol; store = store.old; count = stated; slot_limit = most_slots; state = given_state state.old }) limit).state }
{
    let from = given::state(state);
    let answer = camber::going::go_on(section, section_tol, tol, store, stated, &from, limit);
    telling::tell_going_state(answer, state);
    telling::tell_run(camber::going::called(answer), count, units)
}

/// `rummyteak_go_on` for the cell, by which a march by `rummyteak_march_cell` goes on: the store holds 256 circles at most.
///
/// Refused on entry, with nothing written: 1, 2, 3, 23, 4, 27, 6; 4 is a count above 256 too. Refused later (15 for a 257th circle), or spent (14): the store keeps the circles that it accepted, and a spent one writes its state.
pub fn rummyteak_go_on_cell(
    section: &[f64],
    section_tol: f64,
    tol: f64,
    store: &mut [f64],
    stated: usize,
    state: &mut StateCells,
    limit: u32,
    count: &mut usize,
    units: &mut u32,
) -> u32
    ensures store_after { (record { number = result; count = count.new; units = units.new; store = store.new }) ≡ told_run count.old units.old (going_of (record { section = section.now; section_tol = section_tol; tol = tol; store = store.old; count = stated; slot_limit = cell_slots; state = given_state state.old }) limit).called }
    ensures state_after { state.new ≡ state_left state.old (going_of (record { section = section.now; section_tol = section_tol; tol = tol; store = store.old; count = stated; slot_limit = cell_slots; state = given_state state.old }) limit).state }
{
    let from = given::state(state);
    let answer = camber::going::go_on_cell(section, section_tol, tol, store, stated, &from, limit);
    telling::tell_going_state(answer, state);
    telling::tell_run(camber::going::called(answer), count, units)
}

// The circles on both sides of a line, within a limit of units.
pub fn rummyteak_extract_circles(
    section: &[f64],
    section_tol: f64,
    tol: f64,
    ox: f64,
    oy: f64,
    dx: f64,
    dy: f64,
    store: &mut [f64],
    limit: u32,
    count: &mut usize,
    units: &mut u32,
) -> u32
    ensures { (record { number = result; count = count.new; units = units.new; store = store.new }) ≡ told_run count.old units.old (extraction_of (record { section = section.now; section_tol = section_tol; tol = tol; line = given_line ox oy dx dy; store = store.old; slot_limit = most_slots }) limit) }
{
    let line = given::line(ox, oy, dx, dy);
    telling::tell_run(
        camber::extraction::extract_circles(section, section_tol, tol, line, store, limit),
        count,
        units,
    )
}
