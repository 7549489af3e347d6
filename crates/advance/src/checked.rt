// One advance on a section that passed the entry tests: the end of the march, or the next circle to offer.
ghost use Rattle.std.specs.Prelude.{◌≡◌, ◌-◌, ◌≤◌, ◌<◌};
ghost use Rattle.runs.specs.Run.{under_limit};
ghost use Rattle.halving.specs.Halving.{from_crossing};
ghost use Rattle.advance.specs.Code.{circle_outcome, tries_from, advance_outcome, listed_advanced, outcome_units};

use crate::{Advanced, remaining, steps};
use curve2::checked::Curve2;
use errors::Refusal;
use inscribed::Inscribed;
use line2::surface2::SurfacePoint2;
use queries::Crossing;
use runs::Units;

// How many fractions of a radius are tried.
const FRACTIONS: usize = 4;

// The circle of a crossing is next.
#[tactic(auto, unfolding(crate::specs::Code::circle_outcome))]
fn circle_of(section: &Curve2<'_>, tol: f64, x: Crossing, units: u32) -> Advanced
    ensures { listed_advanced result ≡ circle_outcome units (from_crossing section.now.points.now tol x) }
{
    match halving::checked::from_crossing(section, tol, x) {
        Ok(d) => Advanced::Next(d, units),
        Err(r) => Advanced::Ended(Err(r), units),
    }
}

// Tries the fractions from number `due` on along the ray, each crossing for one unit.
fn tries(
    section: &Curve2<'_>,
    tol: f64,
    c: Inscribed,
    ray: SurfacePoint2,
    due: usize,
    units: Units,
) -> Advanced
    requires { due < 4 }
    ensures { (listed_advanced result ≡ tries_from section.now.points.now tol c ray (under_limit units.limit) (4 - due) due units.taken) × (outcome_units (listed_advanced result) ≤ units.limit) }
{
    let mut u = units;
    for k in due..FRACTIONS {
        if steps::step_of(c, k) < tol {
            return Advanced::Ended(Ok(()), u.taken);
        }
        match u.take() {
            Some(more) => u = more,
            None => return Advanced::Spent(k, u.taken),
        }
        match steps::tried_line(section, c, ray, k) {
            Ok(None) => {}
            Ok(Some(x)) => return circle_of(section, tol, x, u.taken),
            Err(r) => return Advanced::Ended(Err(r), u.taken),
        }
    }
    Advanced::Ended(Err(Refusal::NoAdvance), u.taken)
}

// One advance from c of a checked section, from fraction number `due` on, with the units taken before.
#[tactic(auto, unfolding(crate::specs::Code::ahead_outcome))]
pub fn advance(section: &Curve2<'_>, tol: f64, c: Inscribed, due: usize, units: Units) -> Advanced
    requires { due < 4 }
    ensures { (listed_advanced result ≡ advance_outcome section.now.points.now tol c due (under_limit units.limit) units.taken) × (outcome_units (listed_advanced result) ≤ units.limit) }
{
    match remaining::look_ahead(section, c) {
        Ok(None) => Advanced::Ended(Ok(()), units.taken),
        Ok(Some(ray)) => tries(section, tol, c, ray, due, units),
        Err(r) => Advanced::Ended(Err(r), units.taken),
    }
}
