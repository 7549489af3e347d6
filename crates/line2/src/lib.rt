// Lines, and where a line meets the line of an edge.
#![tactic(auto)]

pub mod surface2;

ghost use Rattle.std.specs.Prelude.{◌≡◌};
ghost use Rattle.line2.specs.Lines.{finite_line, line_through, line_normalized, reversed_line, at_param, line_projection, signed_distance};
ghost use Rattle.line2.specs.Intersection.{intersection_param};

use errors::{Finite, Refusal, watch};
use points::{AngleDir, Point2, Vector2};

#[derive(Clone, Copy)]
pub struct Line2 {
    pub origin: Point2,
    pub direction: Vector2,
}

impl Finite for Line2 {
    ghost finite = { finite_line };

    fn all_finite(self) -> bool {
        self.origin.all_finite() && self.direction.all_finite()
    }
}

// Where two lines meet: the fraction along the first and the one along the second.
#[derive(Clone, Copy)]
pub struct LineParams {
    pub t: f64,
    pub s: f64,
}

impl Line2 {
    // The line through a and b, with a at 0 and b at 1.
    #[tactic(auto, unfolding(crate::specs::Lines::line_through))]
    pub fn from_points(a: Point2, b: Point2) -> Result<Line2, Refusal>
        ensures { result ≡ line_through a b }
    {
        let direction = points::difference(b, a)?;
        Ok(Line2 {
            origin: a,
            direction,
        })
    }

    #[tactic(auto, unfolding(crate::specs::Lines::line_normalized))]
    pub fn new_normalize(origin: Point2, v: Vector2) -> Result<Line2, Refusal>
        ensures { result ≡ line_normalized origin v }
    {
        let direction = v.normalize()?;
        Ok(Line2 { origin, direction })
    }

    pub fn reversed(self) -> Line2
        ensures { result ≡ reversed_line self }
    {
        Line2 {
            origin: self.origin,
            direction: -self.direction,
        }
    }

    // origin + direction × t.
    #[tactic(auto, unfolding(crate::specs::Lines::at_param))]
    pub fn at(self, t: f64) -> Result<Point2, Refusal>
        ensures { result ≡ at_param self t }
    {
        watch(self.origin + self.direction * t)
    }

    // direction · (p - origin).
    #[tactic(auto, unfolding(crate::specs::Lines::line_projection))]
    pub fn scalar_project(self, p: Point2) -> Result<f64, Refusal>
        ensures { result ≡ line_projection self p }
    {
        self.direction.dot(p - self.origin)
    }

    // The distance of p from the line, positive to the right of its direction.
    #[tactic(auto, unfolding(crate::specs::Lines::signed_distance))]
    pub fn signed_distance_to(self, p: Point2) -> Result<f64, Refusal>
        ensures { result ≡ signed_distance self p }
    {
        let right = self.direction.normalize()?.rot90(AngleDir::Cw);
        right.dot(p - self.origin)
    }
}

// Where a line meets the line of an edge, whose origin and direction are those of `edge`.
#[tactic(auto, unfolding(crate::specs::Intersection::intersection_param))]
pub fn intersection_param(line: Line2, edge: Line2) -> Result<Option<LineParams>, Refusal>
    ensures { result ≡ intersection_param line edge }
{
    let d = line.direction;
    let e = edge.direction;
    let det = watch(e.x * d.y - e.y * d.x)?;
    if points::is_within(1e-12, det) {
        return Ok(None);
    }
    let w = edge.origin - line.origin;
    let t = watch((w.y * e.x - w.x * e.y) / det)?;
    let s = watch((w.y * d.x - w.x * d.y) / det)?;
    Ok(Some(LineParams { t, s }))
}
