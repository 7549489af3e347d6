// A section's points backwards.
ghost use Rattle.std.specs.Prelude.{◌≡◌, reverse, ◌≤◌, length};
ghost use Rattle.curve2.specs.Section.{points_of};
ghost use Rattle.cleaning.specs.Cleaning.{placed, backwards, Made};

use crate::Curve;
use crate::checked::{curve_held, put};
use curve2::checked::{Curve2, vertex_at};
use curve2::{AlsoBad, entering};
use errors::Refusal;

// A section's points backwards, into the output's start.
fn put_backwards(section: &Curve2<'_>, out: &mut [f64])
    requires { length section.now.points.now ≤ length out.old }
    ensures { out.new ≡ placed (reverse (points_of section.now.points.now)) out.old }
{
    let n = section.points.len() / 2;
    for i in 0..n {
        put(out, i, vertex_at(section.points, n - 1 - i));
    }
}

// A section's points backwards. The output keeps what stands behind them.
#[tactic(auto, unfolding(crate::specs::Cleaning::backwards))]
pub fn reversed(points: &[f64], tol: f64, out: &mut [f64]) -> Result<Curve, Refusal>
    ensures { Made (backwards points.now tol (length out.old)) tol out.old out.new result }
{
    let also = AlsoBad {
        room: out.len() < points.len(),
        ..AlsoBad::default()
    };
    let section = entering::section_entry(points, tol, also)?;
    put_backwards(&section, out);
    Ok(curve_held(out, points.len() / 2, tol))
}
