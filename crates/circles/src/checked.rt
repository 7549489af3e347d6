// The trial between two circles, of a section that passed the entry tests.
ghost use Rattle.std.specs.Prelude.{◌≡◌, Some};
ghost use Rattle.circles.specs.Trial.{size_of, greater, judged, tried_on, trial};

use curve2::checked::Curve2;
use errors::Refusal;
use inscribed::Inscribed;
use line2::surface2::SurfacePoint2;
use points::AngleDir;

// Not `f64::abs`: -0 stays as it is.
fn size_of(x: f64) -> f64
    ensures { result ≡ size_of x }
{
    if x < 0.0 { -x } else { x }
}

// Not `f64::max`, which of 0 and -0 may give either.
fn greater(a: f64, b: f64) -> f64
    ensures { result ≡ greater a b }
{
    if a < b { b } else { a }
}

// Whether the circle c on the halfway ray is added: it is larger than both, or its radius or its place is off by more than the tolerance.
#[tactic(auto, unfolding(crate::specs::Trial::judged))]
fn judged(
    tol: f64,
    a: Inscribed,
    b: Inscribed,
    ray: SurfacePoint2,
    c: Inscribed,
) -> Result<Option<Inscribed>, Refusal>
    ensures { result ≡ judged tol a b ray (Some c) }
{
    let e_radius = errors::watch(size_of(c.r - ((b.r - a.r) * 0.5 + a.r)))?;
    let e_pos = points::dist(ray.point, c.center())?;
    if greater(a.r, b.r) < c.r || tol < e_radius || tol < e_pos {
        Ok(Some(c))
    } else {
        Ok(None)
    }
}

// The trial on the halfway ray of a and b.
#[tactic(auto, unfolding(crate::specs::Trial::tried_on, crate::specs::Trial::judged))]
fn refined_on(
    section: &Curve2<'_>,
    tol: f64,
    a: Inscribed,
    b: Inscribed,
    ray: SurfacePoint2,
) -> Result<Option<Inscribed>, Refusal>
    ensures { result ≡ tried_on section.now.points.now tol a b ray }
{
    let line = ray.normal_rotated_90(AngleDir::Ccw).to_line();
    match halving::checked::try_inscribed(section, tol, line)? {
        Some(c) => judged(tol, a, b, ray, c),
        None => Ok(None),
    }
}

// The trial: the circle to add between a, the earlier, and b, if there is one.
#[tactic(auto, unfolding(crate::specs::Trial::trial, crate::specs::Trial::tried_on))]
pub fn inscribed_refined(
    section: &Curve2<'_>,
    tol: f64,
    a: Inscribed,
    b: Inscribed,
) -> Result<Option<Inscribed>, Refusal>
    ensures { result ≡ trial section.now.points.now tol a b }
{
    let from = a.camber_point()?;
    let to = b.camber_point()?;
    refined_on(section, tol, a, b, from.halfway(to)?)
}
