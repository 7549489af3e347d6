// The steps ahead from a circle: four fractions of its radius, and the crossing that one of them finds.
ghost use Rattle.std.specs.Prelude.{◌≡◌, Some};
ghost use Rattle.advance.specs.Advance.{fraction, step_of, wide_enough, tried_line};

use curve2::checked::Curve2;
use errors::Refusal;
use inscribed::Inscribed;
use line2::Line2;
use line2::surface2::SurfacePoint2;
use points::AngleDir;
use queries::Crossing;

// Fraction number k of a radius. No table: a table would ask that k is below 4.
fn fraction_of(k: usize) -> f64
    ensures { result ≡ fraction k }
{
    match k {
        0 => 0.125,
        1 => 0.09375,
        2 => 0.0703125,
        _ => 0.052734375,
    }
}

// The step from c with fraction number k.
pub(crate) fn step_of(c: Inscribed, k: usize) -> f64
    ensures { result ≡ step_of c k }
{
    fraction_of(k) * c.r
}

// The crossing, where it spans at least half of c's contacts.
#[tactic(auto, unfolding(crate::specs::Advance::wide_enough))]
fn wide_enough(c: Inscribed, x: Crossing) -> Result<Option<Crossing>, Refusal>
    ensures { result ≡ wide_enough c (Some x) }
{
    let was = points::dist(c.contact0(), c.contact1())?;
    let now = x.line.direction.norm()?;
    if now < 0.5 * was {
        Ok(None)
    } else {
        Ok(Some(x))
    }
}

// The crossing of the line across the ray, one step ahead.
#[tactic(auto, unfolding(crate::specs::Advance::tried_line, crate::specs::Advance::wide_enough))]
pub(crate) fn tried_line(
    section: &Curve2<'_>,
    c: Inscribed,
    ray: SurfacePoint2,
    k: usize,
) -> Result<Option<Crossing>, Refusal>
    ensures { result ≡ tried_line section.now.points.now c ray k }
{
    let line = Line2 {
        origin: ray.at_distance(step_of(c, k))?,
        direction: ray.normal.rot90(AngleDir::Ccw),
    };
    match queries::checked::crossing_line(section, line)? {
        Some(x) => wide_enough(c, x),
        None => Ok(None),
    }
}
