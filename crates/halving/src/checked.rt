// The circle of a crossing and the circle on a line, of a section that passed the entry tests.
ghost use Rattle.std.specs.Prelude.{◌≡◌};
ghost use Rattle.halving.specs.Halving.{halved_from, from_line, from_crossing, try_inscribed, inscribed_on};

use crate::bisection;
use crate::bisection::{InscribedEnd, SearchEnds};
use curve2::checked::Curve2;
use errors::Refusal;
use inscribed::Inscribed;
use line2::Line2;
use queries::Crossing;

// Halves from the ends of the line.
#[tactic(auto, unfolding(crate::specs::Halving::halved_from))]
fn halved_from(
    section: &Curve2<'_>,
    line: Line2,
    resolve: f64,
    len: f64,
) -> Result<Inscribed, Refusal>
    ensures { result ≡ halved_from section.now.points.now line resolve len }
{
    let pos = InscribedEnd {
        f: 1.0,
        d: 0.0,
        p: line.at(1.0)?,
    };
    let neg = InscribedEnd {
        f: 0.0,
        d: 0.0,
        p: line.at(0.0)?,
    };
    bisection::halving_loop(section, line, resolve, len, SearchEnds { pos, neg })
}

// The circle on a line from one side of the section to the other: 10 where the line is too long for the tolerance.
#[tactic(auto, unfolding(crate::specs::Halving::from_line, crate::specs::Halving::halved_from))]
pub fn from_line(section: &Curve2<'_>, tol: f64, line: Line2) -> Result<Inscribed, Refusal>
    ensures { result ≡ from_line section.now.points.now tol line }
{
    let resolve = tol * 0.1;
    let len = line.direction.norm()?;
    if resolve < f64::EPSILON * len {
        return Err(Refusal::TooLong);
    }
    halved_from(section, line, resolve, len)
}

// The circle of a crossing.
pub fn from_crossing(
    section: &Curve2<'_>,
    tol: f64,
    crossing: Crossing,
) -> Result<Inscribed, Refusal>
    ensures { result ≡ from_crossing section.now.points.now tol crossing }
{
    from_line(section, tol, crossing.line)
}

// The circle on a line: none where the line has no crossing.
#[tactic(auto, unfolding(crate::specs::Halving::try_inscribed, crate::specs::Halving::circle_on))]
pub fn try_inscribed(
    section: &Curve2<'_>,
    tol: f64,
    line: Line2,
) -> Result<Option<Inscribed>, Refusal>
    ensures { result ≡ try_inscribed section.now.points.now tol line }
{
    match queries::checked::crossing_line(section, line)? {
        Some(crossing) => Ok(Some(from_crossing(section, tol, crossing)?)),
        None => Ok(None),
    }
}

// The circle on a line: 8 where the line has not exactly two hits.
#[tactic(auto, unfolding(crate::specs::Halving::inscribed_on))]
pub fn inscribed_on(section: &Curve2<'_>, tol: f64, line: Line2) -> Result<Inscribed, Refusal>
    ensures { result ≡ inscribed_on section.now.points.now tol line }
{
    let crossing = queries::asked(queries::checked::crossing_line(section, line))?;
    from_crossing(section, tol, crossing)
}
