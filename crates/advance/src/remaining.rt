// What lies ahead of a circle of a march: the end, or the camber ray to advance along.
ghost use Rattle.std.specs.Prelude.{◌≡◌};
ghost use Rattle.advance.specs.Advance.{farther, remaining, look_ahead};
ghost use Rattle.advance.specs.Code.{listed_ahead};

use curve2::checked::{Curve2, vertex_at};
use errors::Refusal;
use inscribed::Inscribed;
use line2::surface2::SurfacePoint2;
use points::Point2;

// The farther of the farthest distance so far and p's, where p lies ahead.
#[tactic(auto, unfolding(crate::specs::Advance::farther))]
fn farther(ray: SurfacePoint2, most: f64, p: Point2) -> Result<f64, Refusal>
    ensures { result ≡ farther ray most p }
{
    if !errors::is_plus(ray.scalar_projection(p)?) {
        return Ok(most);
    }
    let d = points::dist(ray.point, p)?;
    if most < d { Ok(d) } else { Ok(most) }
}

// The distance from the ray's point to the farthest point ahead of it.
fn remaining(section: &Curve2<'_>, ray: SurfacePoint2) -> Result<f64, Refusal>
    ensures { result ≡ remaining section.now.points.now ray }
{
    let mut most = f64::NEG_INFINITY;
    for k in 0..section.points.len() / 2 {
        most = farther(ray, most, vertex_at(section.points, k))?;
    }
    Ok(most)
}

// Whether the march ends at c: less than 0.375 of its radius is left beyond it.
#[tactic(auto, unfolding(crate::specs::Advance::look_ahead))]
pub(crate) fn look_ahead(
    section: &Curve2<'_>,
    c: Inscribed,
) -> Result<Option<SurfacePoint2>, Refusal>
    ensures { listed_ahead result ≡ look_ahead section.now.points.now c }
{
    let ray = c.camber_point()?;
    let d = remaining(section, ray)?;
    if d - c.r < c.r * 0.375 {
        Ok(None)
    } else {
        Ok(Some(ray))
    }
}
