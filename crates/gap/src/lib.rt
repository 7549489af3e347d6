// The gap of an open section, and where the camber line, drawn on, meets it.
#![tactic(auto)]

pub mod checked;
mod probe;
mod round;

ghost use Rattle.std.specs.Prelude.{◌≡◌, Some};
ghost use Rattle.gap.specs.Gap.{cap_point, cap_intersection};

use errors::Refusal;
use line2::{Line2, LineParams};
use lists::ends;
use lists::ends::Pair;
use points::Point2;

// The gap of an open section: its ends, and the chord between them.
#[derive(Clone, Copy)]
pub struct Gap {
    pub a: Point2,
    pub b: Point2,
    pub chord: Line2,
}

// The point of the ray where it meets the gap's line: 20 where that is behind its start or outside the gap.
#[tactic(auto, unfolding(crate::specs::Gap::cap_point))]
fn cap_point(ray: Line2, met: LineParams) -> Result<Point2, Refusal>
    ensures { result ≡ cap_point ray (Some met) }
{
    if met.t <= 0.0 || !(0.0 <= met.s && met.s <= 1.0) {
        return Err(Refusal::GapMissed);
    }
    ray.at(met.t)
}

// The point where the camber line, drawn on from the last circles, meets the gap.
#[tactic(auto, unfolding(crate::specs::Gap::cap_intersection, crate::specs::Gap::cap_point))]
pub fn end_cap_intersection(end: Pair, gap: Gap) -> Result<Point2, Refusal>
    ensures { result ≡ cap_intersection end gap }
{
    let line = ends::end_camber_ray(end)?.to_line();
    match line2::intersection_param(line, gap.chord)? {
        Some(met) => cap_point(line, met),
        None => Err(Refusal::GapParallel),
    }
}
