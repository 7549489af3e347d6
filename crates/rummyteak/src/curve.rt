// Curves into an output that the caller lends: cleaned, backwards, and through the centres of circles.
ghost use Rattle.std.specs.Prelude.{◌≡◌, length};
ghost use Rattle.cleaning.specs.Cleaning.{cleaned, backwards, output_after, curve_answer};
ghost use Rattle.geometry.specs.Camber.{camber_curve, camber_curve_between};
ghost use Rattle.rummyteak.specs.Told.{told, curve_cells};

use crate::telling;
use points::Point2;

// The curve of a list of points.
pub fn rummyteak_from_points(
    points: &[f64],
    tol: f64,
    force_closed: bool,
    out: &mut [f64],
    count: &mut usize,
    is_closed: &mut bool,
) -> u32
    ensures is_closed_after { (record { number = result; left = curve_cells count.new is_closed.new }) ≡ told (curve_cells count.old is_closed.old) (curve_answer tol (cleaned points.now tol force_closed (length out.old))) }
    ensures out_after { out.new ≡ output_after (cleaned points.now tol force_closed (length out.old)) out.old }
{
    telling::tell_curve(
        cleaning::from_points(points, tol, force_closed, out),
        count,
        is_closed,
    )
}

// A section's points backwards.
pub fn rummyteak_reversed(
    points: &[f64],
    tol: f64,
    out: &mut [f64],
    count: &mut usize,
    is_closed: &mut bool,
) -> u32
    ensures is_closed_after { (record { number = result; left = curve_cells count.new is_closed.new }) ≡ told (curve_cells count.old is_closed.old) (curve_answer tol (backwards points.now tol (length out.old))) }
    ensures out_after { out.new ≡ output_after (backwards points.now tol (length out.old)) out.old }
{
    telling::tell_curve(
        cleaning::reversed::reversed(points, tol, out),
        count,
        is_closed,
    )
}

// The curve through the centres of the circles in use.
pub fn rummyteak_camber_curve(
    store: &[f64],
    count: usize,
    tol: f64,
    out: &mut [f64],
    kept: &mut usize,
    is_closed: &mut bool,
) -> u32
    ensures is_closed_after { (record { number = result; left = curve_cells kept.new is_closed.new }) ≡ told (curve_cells kept.old is_closed.old) (curve_answer tol (camber_curve store.now count tol (length out.old))) }
    ensures out_after { out.new ≡ output_after (camber_curve store.now count tol (length out.old)) out.old }
{
    telling::tell_curve(
        geometry::camber_curve(store, count, tol, out),
        kept,
        is_closed,
    )
}

// The same from a leading edge point to a trailing edge point.
pub fn rummyteak_make_camber_curve(
    le_x: f64,
    le_y: f64,
    te_x: f64,
    te_y: f64,
    store: &[f64],
    count: usize,
    tol: f64,
    out: &mut [f64],
    kept: &mut usize,
    is_closed: &mut bool,
) -> u32
    ensures is_closed_after { (record { number = result; left = curve_cells kept.new is_closed.new }) ≡ told (curve_cells kept.old is_closed.old) (curve_answer tol (camber_curve_between (record { x = le_x; y = le_y }) (record { x = te_x; y = te_y }) store.now count tol (length out.old))) }
    ensures out_after { out.new ≡ output_after (camber_curve_between (record { x = le_x; y = le_y }) (record { x = te_x; y = te_y }) store.now count tol (length out.old)) out.old }
{
    let le = Point2 { x: le_x, y: le_y };
    let te = Point2 { x: te_x, y: te_y };
    telling::tell_curve(
        geometry::make_camber_curve(le, te, store, count, tol, out),
        kept,
        is_closed,
    )
}
