// Writing points into an output, and cleaning points whose count and output have been tested.
ghost use Rattle.std.specs.Prelude.{◌≡◌, ◌+◌, ◌*◌, ◌%◌, ◌≤◌, ltb, length, take, if◌then◌else◌, Ok};
ghost use Rattle.curve2.specs.Section.{points_of, ends_meet};
ghost use Rattle.cleaning.specs.Cleaning.{kept, closing, curve_of, Made};
ghost use Rattle.cleaning.specs.Code.{put, keep, close_held, holding};

use crate::{Curve, Kept};
use curve2::checked::{ends_meet, point_at, vertex_at};
use curve2::plain_dist;
use errors::Refusal;
use points::Point2;

// A point more in the output, behind the `count` that it holds.
#[tactic(auto, unfolding(crate::specs::Code::put))]
pub fn put(out: &mut [f64], count: usize, p: Point2) -> Kept
    requires { 2 * count + 2 ≤ length out.old }
    ensures { (record { kept = result; output = out.new }) ≡ put count p out.old }
{
    out[2 * count] = p.x;
    out[2 * count + 1] = p.y;
    Kept {
        count: count + 1,
        last: p,
    }
}

// A point more in the output, which is dropped if it is no farther than the tolerance from the last one held.
#[tactic(auto, unfolding(crate::specs::Code::keep))]
fn keep(out: &mut [f64], k: Kept, p: Point2, tol: f64) -> Kept
    requires { 2 * k.count + 2 ≤ length out.old }
    ensures { (record { kept = result; output = out.new }) ≡ keep tol (record { kept = k; output = out.old }) p }
{
    if plain_dist(p, k.last) <= tol {
        k
    } else {
        put(out, k.count, p)
    }
}

// Forced closing: the start once more, if it is farther than the tolerance from the last point held.
#[tactic(auto, unfolding(crate::specs::Code::close_held))]
fn close(out: &mut [f64], k: Kept, tol: f64, force_closed: bool) -> Kept
    requires { 2 * k.count + (if force_closed then 2 else 0) ≤ length out.old }
    ensures { (record { kept = result; output = out.new }) ≡ close_held tol force_closed (record { kept = k; output = out.old }) }
{
    if force_closed {
        keep(out, k, point_at(out, 0), tol)
    } else {
        k
    }
}

// The curve of the points at an output's start.
pub(crate) fn curve_held(out: &[f64], count: usize, tol: f64) -> Curve
    requires least { 1 ≤ count }
    requires room { 2 * count ≤ length out.now }
    ensures { result ≡ record { count = count; is_closed = ends_meet tol (points_of (take (2 * count) out.now)) } }
{
    Curve {
        count,
        is_closed: ends_meet(&out[..2 * count], tol),
    }
}

// Points to be cleaned, one or more: their numbers, x and y of each in turn, and the tolerance.
#[derive(Clone, Copy)]
pub struct Uncleaned<'a> {
    pub points: &'a [f64],
    pub tol: f64,
    pub ghost even: { length points.now % 2 ≡ 0 },
    pub ghost least: { 2 ≤ length points.now },
}

impl Uncleaned<'_> {
    // Whether cleaning leaves fewer than two points: none is farther than the tolerance from the first.
    pub fn is_too_few(&self) -> bool
        ensures { result ≡ ltb (length (kept self.now.tol (points_of self.now.points.now))) 2 }
    {
        let first = vertex_at(self.points, 0);
        (1..self.points.len() / 2).all(|i| plain_dist(vertex_at(self.points, i), first) <= self.tol)
    }

    // The points that cleaning keeps, into the output.
    fn keep_all(&self, out: &mut [f64]) -> Kept
        requires { length self.now.points.now ≤ length out.old }
        ensures { (record { kept = result; output = out.new }) ≡ holding out.old (kept self.now.tol (points_of self.now.points.now)) }
    {
        let mut k = put(out, 0, vertex_at(self.points, 0));
        for i in 1..self.points.len() / 2 {
            k = keep(out, k, vertex_at(self.points, i), self.tol);
        }
        k
    }

    // The curve that cleaning makes, where two points or more are kept. Without forced closing it fits an output as long as the points.
    pub fn clean(&self, force_closed: bool, out: &mut [f64]) -> Curve
        requires { length self.now.points.now + (if force_closed then 2 else 0) ≤ length out.old }
        ensures { Made (Ok (closing self.now.tol force_closed (kept self.now.tol (points_of self.now.points.now)))) self.now.tol out.old out.new (Ok result) }
    {
        let k = self.keep_all(out);
        let held = close(out, k, self.tol, force_closed);
        curve_held(out, held.count, self.tol)
    }
}

// The curve of points whose count and output have been tested: 5 where fewer than two are kept.
#[tactic(auto, unfolding(crate::specs::Cleaning::curve_of))]
pub fn clean_points(
    points: &[f64],
    tol: f64,
    force_closed: bool,
    out: &mut [f64],
) -> Result<Curve, Refusal>
    requires even { length points.now % 2 ≡ 0 }
    requires least { 2 ≤ length points.now }
    requires room { length points.now + 2 ≤ length out.old }
    ensures { Made (curve_of tol force_closed (points_of points.now)) tol out.old out.new result }
{
    let uncleaned = Uncleaned { points, tol };
    if uncleaned.is_too_few() {
        Err(Refusal::TooFewKept)
    } else {
        Ok(uncleaned.clean(force_closed, out))
    }
}
