// The probe into the gap of an open section: a line halfway to the nearer end of the gap, and the circle on it.
ghost use Rattle.std.specs.Prelude.{◌≡◌};
ghost use Rattle.gap.specs.Probe.{probed, lesser, ahead_of, turned_to, across_ray, probe_line};

use crate::Gap;
use curve2::checked::Curve2;
use errors::Refusal;
use inscribed::Inscribed;
use line2::Line2;
use line2::surface2::SurfacePoint2;
use lists::ends;
use lists::ends::Pair;
use points::AngleDir;

// The lesser of two values. Not `f64::min`: of values that compare equal, as 0 and -0, that may give either.
fn lesser(a: f64, b: f64) -> f64
    ensures { result ≡ lesser a b }
{
    if b < a { b } else { a }
}

// How far the nearer end of the gap lies ahead on the ray: 18 where that is below zero.
#[tactic(auto, unfolding(crate::specs::Probe::ahead_of))]
fn ahead_of(ray: SurfacePoint2, gap: Gap) -> Result<f64, Refusal>
    ensures { result ≡ ahead_of ray gap }
{
    let a = ray.scalar_projection(gap.a)?;
    let b = ray.scalar_projection(gap.b)?;
    let far = lesser(a, b);
    if far < 0.0 {
        Err(Refusal::GapBehind)
    } else {
        Ok(far)
    }
}

// The probe, reversed where it runs against the contact direction of the last circle.
#[tactic(auto, unfolding(crate::specs::Probe::turned_to))]
fn turned_to(last: Inscribed, probe: Line2) -> Result<Line2, Refusal>
    ensures { result ≡ turned_to last probe }
{
    if probe.direction.dot(last.contact_dir())? < 0.0 {
        Ok(probe.reversed())
    } else {
        Ok(probe)
    }
}

// The line across the ray, moved halfway to the nearer end of the gap.
#[tactic(auto, unfolding(crate::specs::Probe::across_ray))]
fn across_ray(ray: SurfacePoint2, far: f64, last: Inscribed) -> Result<Line2, Refusal>
    ensures { result ≡ across_ray ray far last }
{
    let moved = ray.shifted(far * 0.5)?;
    turned_to(last, moved.normal_rotated_90(AngleDir::Ccw).to_line())
}

// The probe: a line halfway to the nearer end of the gap.
#[tactic(auto, unfolding(crate::specs::Probe::probe_line))]
fn probe_line(end: Pair, gap: Gap) -> Result<Line2, Refusal>
    ensures { result ≡ probe_line end gap }
{
    let ray = ends::end_camber_ray(end)?;
    let far = ahead_of(ray, gap)?;
    across_ray(ray, far, end.last)
}

// The circle on the probe, if the probe has two hits.
#[tactic(auto, unfolding(crate::specs::Probe::probed))]
pub(crate) fn probe(
    section: &Curve2<'_>,
    tol: f64,
    gap: Gap,
    end: Pair,
) -> Result<Option<Inscribed>, Refusal>
    ensures { result ≡ probed section.now.points.now tol gap end }
{
    halving::checked::try_inscribed(section, tol, probe_line(end, gap)?)
}
