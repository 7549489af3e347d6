// Extraction: a march in each direction from a reference line.
ghost use Rattle.std.specs.Prelude.{◌≡◌, Float};
ghost use Rattle.runs.specs.Run.{under_limit};
ghost use Rattle.inscribed.specs.Store.{most_slots};
ghost use Rattle.refine.specs.Report.{listed_run, listed_called};
ghost use Rattle.camber.specs.Extraction.{first_half, extraction_of};

use crate::halves;
use curve2::checked::Curve2;
use errors::Refusal;
use inscribed::Inscribed;
use inscribed::checked::CirclesStore;
use line2::Line2;
use refine::{Run, RunEnd};
use runs::Units;

// The circles on both sides of a reference line, of a section that passed the entry tests, from the first circle on.
fn both_halves(
    section: &Curve2<'_>,
    tol: f64,
    line: Line2,
    store: &mut [f64],
    circle: Inscribed,
    limit: u32,
) -> Run<()>
    ensures { (section_tol : Float) → listed_run result store.new ≡ first_half (record { section = section.now.points.now; section_tol = section_tol; tol = tol; line = line; store = store.old; slot_limit = most_slots }) (under_limit limit) circle }
{
    let mut circles = CirclesStore::new(store, 0);
    let first = crate::march::march_from(
        section,
        tol,
        &mut circles,
        circle,
        Units::none_taken(limit),
    );
    let RunEnd::Finished(()) = first.end else {
        return first;
    };
    let units = Units {
        limit,
        taken: first.units,
    };
    halves::second_half(section, tol, line, &mut circles, units)
}

// The circles on both sides of a reference line, within one limit of units over both marches.
#[tactic(auto, unfolding(crate::specs::Extraction::extraction_after))]
pub fn extract_circles(
    section: &[f64],
    section_tol: f64,
    tol: f64,
    line: Line2,
    store: &mut [f64],
    limit: u32,
) -> Result<Run<()>, Refusal>
    ensures { listed_called result store.new ≡ extraction_of (record { section = section.now; section_tol = section_tol; tol = tol; line = line; store = store.old; slot_limit = most_slots }) limit }
{
    let curve = crate::march::entered(section, section_tol, tol, line)?;
    match halving::checked::inscribed_on(&curve, tol, line) {
        Ok(circle) => Ok(both_halves(&curve, tol, line, store, circle, limit)),
        Err(r) => Ok(Run::refused(r, 0, 0)),
    }
}
