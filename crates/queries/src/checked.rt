// The crossings of a line with a section whose entry tests passed, and the section's nearest point to a point.
ghost use Rattle.std.specs.Prelude.{◌≡◌, ◌*◌, ◌+◌, ◌<◌, Some};
ghost use Rattle.points.specs.Closest.{closest_on_edge};
ghost use Rattle.curve2.specs.Section.{point_at};
ghost use Rattle.curve2.specs.Stations.{last_vertex};
ghost use Rattle.queries.specs.Hits.{last_edge};
ghost use Rattle.queries.specs.Crossing.{span, crossed, crossing_of, joined_crossing_of};
ghost use Rattle.queries.specs.Nearest.{nearest_of};

use crate::hits::Seen;
use crate::joined::MOST_EDGES;
use crate::{Crossing, Hit, HitEdges, Nearest, hits, joined};
use arrayvec::ArrayVec;
use curve2::checked::{Curve2, point_at};
use errors::Refusal;
use line2::Line2;
use points::Point2;
use points::segment2::{EdgePoint, closest_on_edge};

// The crossing from a line's first hit to its second.
#[tactic(auto, unfolding(crate::specs::Crossing::crossed))]
fn spanned(line: Line2, first: Hit, second: Hit) -> Result<Option<Crossing>, Refusal>
    ensures { result ≡ crossed line (Some (span first second)) }
{
    let a = line.at(first.t)?;
    let b = line.at(second.t)?;
    let edges = HitEdges {
        first: first.edge,
        second: second.edge,
    };
    Ok(Some(Crossing {
        line: Line2::from_points(a, b)?,
        edges,
    }))
}

// The crossing of a line with exactly two hits, from the lesser fraction to the greater.
pub fn crossing_line(section: &Curve2<'_>, line: Line2) -> Result<Option<Crossing>, Refusal>
    ensures { result ≡ crossing_of section.now.points.now line }
{
    match hits::seen_hits(section, line)? {
        Seen::Pair(g, h) => {
            if h.t < g.t {
                spanned(line, h, g)
            } else {
                spanned(line, g, h)
            }
        }
        Seen::Nothing | Seen::One(_) | Seen::Many => Ok(None),
    }
}

// The number of a section's last edge.
fn last_edge(section: &Curve2<'_>) -> usize
    ensures { result ≡ last_edge section.now.points.now }
{
    section.last_vertex() - 1
}

// The crossing of a line with exactly two hits, where hits nearer than 1e-8 to the last kept one, and on a neighbouring edge, are dropped.
pub fn joined_crossing(section: &Curve2<'_>, line: Line2) -> Result<Option<Crossing>, Refusal>
    ensures { result ≡ joined_crossing_of section.now.points.now section.now.tol line }
{
    let mut hits: ArrayVec<Hit, MOST_EDGES> = ArrayVec::new();
    joined::sorted_hits(section, line, &mut hits)?;
    match joined::kept_hits(hits.as_slice(), section.is_closed(), last_edge(section)) {
        Seen::Pair(g, h) => spanned(line, g, h),
        Seen::Nothing | Seen::One(_) | Seen::Many => Ok(None),
    }
}

// The nearest point of an edge.
fn closest_at(section: &Curve2<'_>, edge: usize, p: Point2) -> Result<EdgePoint, Refusal>
    requires { edge < last_vertex section.now.points.now }
    ensures { result ≡ closest_on_edge p (point_at section.now.points.now (2 * edge)) (point_at section.now.points.now (2 * edge + 2)) }
{
    let a = point_at(section.points, 2 * edge);
    let b = point_at(section.points, 2 * edge + 2);
    closest_on_edge(p, a, b)
}

// The nearest point of a section; the lower edge where two are as near.
pub fn closest_point(section: &Curve2<'_>, p: Point2) -> Result<Nearest, Refusal>
    ensures { result ≡ nearest_of section.now.points.now p }
{
    let mut best = Nearest {
        index: 0,
        at: closest_at(section, 0, p)?,
    };
    for index in 1..section.last_vertex() {
        let at = closest_at(section, index, p)?;
        if at.square < best.at.square {
            best = Nearest { index, at };
        }
    }
    Ok(best)
}
