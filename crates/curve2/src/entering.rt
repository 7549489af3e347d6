// The entry tests of a section handed in.
ghost use Rattle.std.specs.Prelude.{◌≡◌, IfOk};
ghost use Rattle.errors.specs.Answer.{passed};
ghost use Rattle.curve2.specs.Entry.{bad_count, bad_numbers, bad_tolerance, bad_general, finer_general, not_spaced, in_range, section_entry, HasPoints};

use crate::checked::Curve2;
use crate::{AlsoBad, MOST_POINTS, checked};
use errors::Refusal;

// Test 1: a count of numbers that is odd, or of fewer than 2 points or more than `most`.
pub fn is_bad_count(most: usize, count: usize) -> bool
    ensures { result ≡ bad_count most count }
{
    count % 2 != 0 || count / 2 < 2 || most < count / 2
}

// Whether a coordinate is within 1,000,000 in size.
pub fn is_in_range(x: f64) -> bool
    ensures { result ≡ in_range x }
{
    -1000000.0 <= x && x <= 1000000.0
}

// Test 2: a coordinate that isn't finite or lies beyond 1,000,000.
pub fn has_bad_number(points: &[f64]) -> bool
    ensures { result ≡ bad_numbers points.now }
{
    points.iter().any(|x| !is_in_range(*x))
}

// Test 3: a section tolerance outside 0 to 1,000,000.
pub fn is_bad_tolerance(tol: f64) -> bool
    ensures { result ≡ bad_tolerance tol }
{
    !(0.0 <= tol && tol <= 1000000.0)
}

// Test 3 of a general tolerance: outside 1e-6 to 1,000.
pub fn is_bad_general(tol: f64) -> bool
    ensures { result ≡ bad_general tol }
{
    !(0.000001 <= tol && tol <= 1000.0)
}

// Test 23: a general tolerance smaller than the section tolerance.
pub fn is_finer_general(section_tol: f64, tol: f64) -> bool
    ensures { result ≡ finer_general section_tol tol }
{
    tol < section_tol
}

// Test 6: neighbours within the tolerance of each other, or lengths that don't strictly rise.
pub(crate) fn is_not_spaced(points: &[f64], tol: f64) -> bool
    requires { HasPoints points.now }
    ensures { result ≡ not_spaced points.now tol }
{
    let mut length = 0.0;
    for i in 0..points.len() / 2 - 1 {
        let edge = checked::edge_length(points, 2 * i);
        let next = edge + length;
        if edge <= tol || !(length < next) {
            return true;
        }
        length = next;
    }
    false
}

// The entry tests of a section, in number order and 23 straight after 3, with what fails of the other arguments.
#[tactic(auto, unfolding(crate::specs::Entry::section_entry))]
fn check_section(points: &[f64], tol: f64, also: AlsoBad) -> Result<(), Refusal>
    ensures { result ≡ section_entry points.now tol also }
{
    if is_bad_count(MOST_POINTS, points.len()) {
        return Err(Refusal::PointCount);
    }
    if has_bad_number(points) || also.number {
        return Err(Refusal::BadNumber);
    }
    if is_bad_tolerance(tol) || also.tolerance {
        return Err(Refusal::Tolerance);
    }
    if also.finer {
        return Err(Refusal::FinerThanSection);
    }
    if also.room {
        return Err(Refusal::NoRoom);
    }
    if also.state {
        return Err(Refusal::BadState);
    }
    if is_not_spaced(points, tol) {
        return Err(Refusal::NotSpaced);
    }
    Ok(())
}

// The entry tests of a section, in number order and 23 straight after 3, with what fails of the other arguments. The section that passed them is handed on.
pub fn section_entry(points: &[f64], tol: f64, also: AlsoBad) -> Result<Curve2<'_>, Refusal>
    ensures entry { passed result ≡ section_entry points.now tol also }
    ensures lent { IfOk result (λ s. (s.points.now ≡ points.now) × (s.tol ≡ tol)) }
{
    check_section(points, tol, also)?;
    Ok(Curve2 { points, tol })
}
