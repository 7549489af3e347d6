// The hits of a line with a section's edges, in one pass.
ghost use Rattle.std.specs.Prelude.{◌≡◌, ◌*◌, ◌<◌};
ghost use Rattle.curve2.specs.Stations.{last_vertex};
ghost use Rattle.queries.specs.Hits.{edge_hit};
ghost use Rattle.queries.specs.Code.{edge_at, added_to, seen_hits};

use crate::Hit;
use curve2::checked::{Curve2, point_at};
use errors::Refusal;
use line2::Line2;
use points::Point2;

// The hits so far, as far as a crossing needs them: none, one, two, or more, so that this is no `Option`.
#[derive(Clone, Copy)]
pub enum Seen {
    Nothing,
    One(Hit),
    Pair(Hit, Hit),
    Many,
}

// The hit of a line with the edge from a to b; both ends count.
#[tactic(auto, unfolding(crate::specs::Hits::edge_hit))]
fn edge_hit(line: Line2, a: Point2, b: Point2) -> Result<Option<f64>, Refusal>
    ensures { result ≡ edge_hit line (record { a = a; b = b }) }
{
    let edge = Line2 {
        origin: a,
        direction: b - a,
    };
    match line2::intersection_param(line, edge)? {
        Some(p) if 0.0 <= p.s && p.s <= 1.0 => Ok(Some(p.t)),
        _ => Ok(None),
    }
}

// The hit of an edge.
pub(crate) fn hit_at(section: &Curve2<'_>, edge: usize, line: Line2) -> Result<Option<f64>, Refusal>
    requires { edge < last_vertex section.now.points.now }
    ensures { result ≡ edge_hit line (edge_at section.now.points.now (2 * edge)) }
{
    let a = point_at(section.points, 2 * edge);
    let b = point_at(section.points, 2 * edge + 2);
    edge_hit(line, a, b)
}

// One more hit.
#[tactic(auto, unfolding(crate::specs::Code::added_to))]
pub(crate) fn added(seen: Seen, hit: Hit) -> Seen
    ensures { result ≡ added_to seen hit }
{
    match seen {
        Seen::Nothing => Seen::One(hit),
        Seen::One(first) => Seen::Pair(first, hit),
        Seen::Pair(_, _) | Seen::Many => Seen::Many,
    }
}

// The hits of a line with every edge.
pub(crate) fn seen_hits(section: &Curve2<'_>, line: Line2) -> Result<Seen, Refusal>
    ensures { result ≡ seen_hits section.now.points.now line }
{
    let mut seen = Seen::Nothing;
    for edge in 0..section.last_vertex() {
        if let Some(t) = hit_at(section, edge, line)? {
            seen = added(seen, Hit { t, edge });
        }
    }
    Ok(seen)
}
