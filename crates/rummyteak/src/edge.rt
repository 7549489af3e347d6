// The open edge.
ghost use Rattle.std.specs.Prelude.{◌≡◌};
ghost use Rattle.edges.specs.Edges.{open_at_end, fit_of};
ghost use Rattle.rummyteak.specs.Told.{told, told_run, point_left};

use crate::telling;

// Whether a section is open at one end of its circles.
pub fn rummyteak_is_open_at_end(
    section: &[f64],
    section_tol: f64,
    tol: f64,
    store: &[f64],
    count: usize,
    at_front: bool,
    is_open: &mut bool,
) -> u32
    ensures { (record { number = result; left = is_open.new }) ≡ told is_open.old (open_at_end (record { section = section.now; section_tol = section_tol; tol = tol; store = store.now; count = count; at_front = at_front })) }
{
    telling::tell(
        edges::is_open_at_end(section, section_tol, tol, store, count, at_front),
        is_open,
    )
}

// The open edge of a section at one end of its circles, within a limit of units.
pub fn rummyteak_fit_open_edge(
    section: &[f64],
    section_tol: f64,
    tol: f64,
    store: &mut [f64],
    stated: usize,
    at_front: bool,
    limit: u32,
    point: &mut [f64; 2],
    count: &mut usize,
    units: &mut u32,
) -> u32
    ensures store_after { (record { number = result; count = count.new; units = units.new; store = store.new }) ≡ told_run count.old units.old (fit_of (record { section = section.now; section_tol = section_tol; tol = tol; store = store.old; count = stated; at_front = at_front }) limit) }
    ensures point_after { point.new ≡ point_left point.old (fit_of (record { section = section.now; section_tol = section_tol; tol = tol; store = store.old; count = stated; at_front = at_front }) limit) }
{
    telling::tell_fit(
        edges::fit_open_edge(section, section_tol, tol, store, stated, at_front, limit),
        point,
        count,
        units,
    )
}
