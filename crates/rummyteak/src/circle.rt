// What is asked of one circle or two.
ghost use Rattle.std.specs.Prelude.{◌≡◌};
ghost use Rattle.inscribed.specs.Store.{numbers_of, circle_at};
ghost use Rattle.circles.specs.Asked.{from_crossing_asked, try_asked, trial_asked};
ghost use Rattle.rummyteak.specs.Told.{told_as, given_line, crossing_cells, circle_on_line_left, trial_cells, trial_left};

use crate::{given, telling};
use inscribed::store::WIDTH;

// The circle of a line that is taken as a crossing.
pub fn rummyteak_inscribed_from_crossing(
    section: &[f64],
    section_tol: f64,
    tol: f64,
    ox: f64,
    oy: f64,
    dx: f64,
    dy: f64,
    circle: &mut [f64; WIDTH],
) -> u32
    ensures { (record { number = result; left = circle.new }) ≡ told_as numbers_of circle.old (from_crossing_asked section.now section_tol tol (given_line ox oy dx dy)) }
{
    let line = given::line(ox, oy, dx, dy);
    telling::tell_circle(
        circles::inscribed_from_crossing(section, section_tol, tol, line),
        circle,
    )
}

// The circle on a line, and the edges of the line's crossing.
pub fn rummyteak_try_inscribed(
    section: &[f64],
    section_tol: f64,
    tol: f64,
    ox: f64,
    oy: f64,
    dx: f64,
    dy: f64,
    circle: &mut [f64; WIDTH],
    edges: &mut [usize; 2],
) -> u32
    ensures { (record { number = result; left = crossing_cells circle.new edges.new }) ≡ told_as circle_on_line_left (crossing_cells circle.old edges.old) (try_asked section.now section_tol tol (given_line ox oy dx dy)) }
{
    let line = given::line(ox, oy, dx, dy);
    telling::tell_circle_on_line(
        circles::try_inscribed(section, section_tol, tol, line),
        circle,
        edges,
    )
}

// The trial between two circles, a the earlier: the circle to add, if there is one.
pub fn rummyteak_inscribed_refined(
    section: &[f64],
    section_tol: f64,
    tol: f64,
    a: &[f64; WIDTH],
    b: &[f64; WIDTH],
    circle: &mut [f64; WIDTH],
    added: &mut bool,
) -> u32
    ensures { (record { number = result; left = trial_cells circle.new added.new }) ≡ told_as (trial_left circle.old) (trial_cells circle.old added.old) (trial_asked section.now section_tol tol (circle_at a.now 0) (circle_at b.now 0)) }
{
    let earlier = given::circle_of(a);
    let later = given::circle_of(b);
    telling::tell_trial(
        circles::inscribed_refined(section, section_tol, tol, earlier, later),
        circle,
        added,
    )
}
