// The open edge: whether the section is open at an end, and the point where the camber line meets the gap.
#![tactic(auto)]

mod fitting;
pub mod laws;
mod open_end;

ghost use Rattle.curve2.specs.Lent.{IsLent};
ghost use Rattle.errors.specs.Answer.{passed};
ghost use Rattle.std.specs.Prelude.{◌≡◌, Float};
ghost use Rattle.refine.specs.Report.{listed_called};
ghost use Rattle.edges.specs.Edges.{edge_entry, open_at_end, fit_of};

use curve2::checked::Curve2;
use curve2::{AlsoBad, entering};
use errors::Refusal;
use inscribed::checked::{CirclesInUse, CirclesStore};
use points::Point2;
use refine::Run;

// The entry tests of an edge, with whether the general tolerance is finer than the section's: `is_open_at_end` isn't held to that.
#[tactic(auto, unfolding(crate::specs::Edges::edge_entry))]
fn entered<'a>(
    section: &'a [f64],
    section_tol: f64,
    tol: f64,
    store: &[f64],
    count: usize,
    at_front: bool,
    finer: bool,
) -> Result<Curve2<'a>, Refusal>
    ensures entry { passed result ≡ edge_entry (record { section = section.now; section_tol = section_tol; tol = tol; store = store.now; count = count; at_front = at_front }) finer }
    ensures lent { IsLent section.now section_tol result }
{
    let also = AlsoBad {
        number: inscribed::store::has_bad_circle(store, count),
        tolerance: entering::is_bad_general(tol),
        finer,
        room: inscribed::store::is_bad_store_count(store, count),
        state: false,
    };
    entering::section_entry(section, section_tol, also)
}

// The open edge of a section at one end of its circles, within a limit of units.
#[tactic(auto, unfolding(crate::specs::Edges::fit_after))]
pub fn fit_open_edge(
    section: &[f64],
    section_tol: f64,
    tol: f64,
    store: &mut [f64],
    count: usize,
    at_front: bool,
    limit: u32,
) -> Result<Run<Point2>, Refusal>
    ensures { listed_called result store.new ≡ fit_of (record { section = section.now; section_tol = section_tol; tol = tol; store = store.old; count = count; at_front = at_front }) limit }
{
    let finer = entering::is_finer_general(section_tol, tol);
    let curve = entered(section, section_tol, tol, store, count, at_front, finer)?;
    let mut circles = CirclesStore::new(store, count);
    Ok(fitting::fit(&curve, tol, &mut circles, at_front, limit))
}

// Whether the section is open at one end of its circles: no for a closed section, before the circles are counted.
#[tactic(auto, unfolding(crate::specs::Edges::open_at_end))]
pub fn is_open_at_end(
    section: &[f64],
    section_tol: f64,
    tol: f64,
    store: &[f64],
    count: usize,
    at_front: bool,
) -> Result<bool, Refusal>
    ensures { result ≡ open_at_end (record { section = section.now; section_tol = section_tol; tol = tol; store = store.now; count = count; at_front = at_front }) }
{
    let curve = entered(section, section_tol, tol, store, count, at_front, false)?;
    if curve.is_closed() {
        return Ok(false);
    }
    open_end::is_beyond_end(&curve, &CirclesInUse { store, count }, at_front)
}
