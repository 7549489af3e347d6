// Cleaning a list of points into a curve.
#![tactic(auto)]

pub mod checked;
pub mod reversed;

ghost use Rattle.std.specs.Prelude.{◌≡◌, length};
ghost use Rattle.cleaning.specs.Cleaning.{cleaning_entry, cleaned, Made};

use curve2::{MOST_POINTS, entering};
use errors::Refusal;
use points::Point2;

// Cleaning takes no more points than this: forced closing may add one.
pub const MOST_CLEANED: usize = MOST_POINTS - 1;

// A curve in an output: how many points it has, and whether its ends meet.
#[derive(Clone, Copy)]
pub struct Curve {
    pub count: usize,
    pub is_closed: bool,
}

// What an output holds so far: how many points from its start on, and the last of them. The output is no part of it: how much room is left follows from the points that each function has yet to put, so each would have to ask for it of such a struct too.
#[derive(Clone, Copy)]
pub struct Kept {
    pub count: usize,
    pub last: Point2,
}

// The entry tests of cleaning, in number order; `room` is the output's length.
fn check_points(points: &[f64], tol: f64, room: usize) -> Result<(), Refusal>
    ensures { result ≡ cleaning_entry points.now tol room }
{
    if entering::is_bad_count(MOST_CLEANED, points.len()) {
        return Err(Refusal::PointCount);
    }
    if entering::has_bad_number(points) {
        return Err(Refusal::BadNumber);
    }
    if entering::is_bad_tolerance(tol) {
        return Err(Refusal::Tolerance);
    }
    if room < points.len() + 2 {
        return Err(Refusal::NoRoom);
    }
    Ok(())
}

// The curve of a list of points: a point no farther than the tolerance from the last one kept is dropped, and forced closing adds the start
// where the ends are farther apart. The kept points come into the output, which keeps what stands behind them.
pub fn from_points(
    points: &[f64],
    tol: f64,
    force_closed: bool,
    out: &mut [f64],
) -> Result<Curve, Refusal>
    ensures { Made (cleaned points.now tol force_closed (length out.old)) tol out.old out.new result }
{
    check_points(points, tol, out.len())?;
    checked::clean_points(points, tol, force_closed, out)
}
