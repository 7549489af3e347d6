// What is asked of a section with a general tolerance. Each function makes the entry tests, and then its step.
#![tactic(auto)]

pub mod checked;

ghost use Rattle.curve2.specs.Lent.{IsLent};
ghost use Rattle.errors.specs.Answer.{passed};
ghost use Rattle.std.specs.Prelude.{◌≡◌, ◌||◌};
ghost use Rattle.inscribed.specs.Store.{bad_circle};
ghost use Rattle.circles.specs.Asked.{circle_entry, line_entry, from_crossing_asked, try_asked, trial_asked};

use curve2::checked::Curve2;
use curve2::{AlsoBad, entering};
use errors::{Finite, Refusal};
use inscribed::Inscribed;
use line2::Line2;
use queries::HitEdges;

// The circle on a line, and the edges of the line's crossing.
#[derive(Clone, Copy)]
pub struct CircleOnLine {
    pub circle: Inscribed,
    pub edges: HitEdges,
}

// The entry tests, with whether a number of the other arguments is bad, and whether the general tolerance is finer than the section's: one circle or one trial isn't held to that.
#[tactic(auto, unfolding(crate::specs::Asked::circle_entry))]
fn entered(
    section: &[f64],
    section_tol: f64,
    tol: f64,
    number: bool,
    finer: bool,
) -> Result<Curve2<'_>, Refusal>
    ensures entry { passed result ≡ circle_entry section.now section_tol tol number finer }
    ensures lent { IsLent section.now section_tol result }
{
    let also = AlsoBad {
        number,
        tolerance: entering::is_bad_general(tol),
        finer,
        room: false,
        state: false,
    };
    entering::section_entry(section, section_tol, also)
}

// The entry tests of a line.
pub fn line_entry(
    section: &[f64],
    section_tol: f64,
    tol: f64,
    line: Line2,
    finer: bool,
) -> Result<Curve2<'_>, Refusal>
    ensures entry { passed result ≡ line_entry section.now section_tol tol line finer }
    ensures lent { IsLent section.now section_tol result }
{
    entered(section, section_tol, tol, !line.all_finite(), finer)
}

// Whether a number of either circle is bad.
fn is_bad_pair(a: Inscribed, b: Inscribed) -> bool
    ensures { result ≡ (bad_circle a || bad_circle b) }
{
    inscribed::store::is_bad_circle(a) || inscribed::store::is_bad_circle(b)
}

// The circle of a line that is taken as a crossing: 10 where it is too long to be halved.
#[tactic(auto, unfolding(crate::specs::Asked::from_crossing_asked))]
pub fn inscribed_from_crossing(
    section: &[f64],
    section_tol: f64,
    tol: f64,
    line: Line2,
) -> Result<Inscribed, Refusal>
    ensures { result ≡ from_crossing_asked section.now section_tol tol line }
{
    let curve = line_entry(section, section_tol, tol, line, false)?;
    halving::checked::from_line(&curve, tol, line)
}

// The circle on a line, with the edges of the line's crossing: 8 where the line has not exactly two hits.
#[tactic(auto, unfolding(crate::specs::Asked::try_asked))]
pub fn try_inscribed(
    section: &[f64],
    section_tol: f64,
    tol: f64,
    line: Line2,
) -> Result<CircleOnLine, Refusal>
    ensures { result ≡ try_asked section.now section_tol tol line }
{
    let curve = line_entry(section, section_tol, tol, line, false)?;
    let crossing = queries::asked(queries::checked::crossing_line(&curve, line))?;
    Ok(CircleOnLine {
        circle: halving::checked::from_crossing(&curve, tol, crossing)?,
        edges: crossing.edges,
    })
}

// The trial between two circles, a the earlier: the circle to add, if any.
#[tactic(auto, unfolding(crate::specs::Asked::trial_asked))]
pub fn inscribed_refined(
    section: &[f64],
    section_tol: f64,
    tol: f64,
    a: Inscribed,
    b: Inscribed,
) -> Result<Option<Inscribed>, Refusal>
    ensures { result ≡ trial_asked section.now section_tol tol a b }
{
    let curve = entered(section, section_tol, tol, is_bad_pair(a, b), false)?;
    checked::inscribed_refined(&curve, tol, a, b)
}
