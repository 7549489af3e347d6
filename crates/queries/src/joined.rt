// The joined crossing: hits near each other on neighbouring edges count as one. The hits are kept sorted by their fractions.
ghost use Rattle.std.specs.Prelude.{◌≡◌, ◌<◌, length, []};
ghost use Rattle.arrayvec.specs.ArrayVec.{array_vec_len};
ghost use Rattle.queries.specs.Hits.{inserted, follows as edgeFollows, across_seam, neighbours, nearby_neighbour, dropped};
ghost use Rattle.queries.specs.Code.{seen_of, place_of, put_hits, sorted_hits, most_edges};

use crate::hits::Seen;
use crate::{Hit, hits};
use arrayvec::ArrayVec;
use curve2::MOST_POINTS;
use curve2::checked::Curve2;
use errors::Refusal;
use line2::Line2;

// One place for each edge that a section can have.
pub(crate) const MOST_EDGES: usize = MOST_POINTS - 1;

// Where a fraction goes: in front of the first hit whose own is greater. It is searched for from the front: a search by halves would ask each caller that the hits are sorted.
fn place_of(hits: &[Hit], t: f64) -> usize
    ensures { result ≡ place_of t hits.now }
{
    hits.iter().position(|h| t < h.t).unwrap_or(hits.len())
}

// Puts a hit in its place.
fn insert(hits: &mut ArrayVec<Hit, MOST_EDGES>, hit: Hit)
    requires { array_vec_len hits.old < most_edges }
    ensures { hits.new.items ≡ inserted hit hits.old.items }
{
    let place = place_of(hits.as_slice(), hit.t);
    hits.insert(place, hit);
}

// The hits of a line with every edge, sorted.
pub(crate) fn sorted_hits(
    section: &Curve2<'_>,
    line: Line2,
    hits: &mut ArrayVec<Hit, MOST_EDGES>,
) -> Result<(), Refusal>
    requires { hits.old.items ≡ [] }
    ensures { put_hits result hits.new.items ≡ sorted_hits section.now.points.now line }
{
    for edge in 0..section.last_vertex() {
        if let Some(t) = hits::hit_at(section, edge, line)? {
            insert(hits, Hit { t, edge });
        }
    }
    Ok(())
}

// Whether edge j comes behind edge i.
fn follows(i: usize, j: usize) -> bool
    ensures { result ≡ edgeFollows i j }
{
    j != 0 && i == j - 1
}

// Whether edge i is the last and j the first.
fn is_across_seam(last: usize, i: usize, j: usize) -> bool
    ensures { result ≡ across_seam last i j }
{
    i == last && j == 0
}

// Whether two edges are neighbours; last and first edge of a closed section are.
#[tactic(auto, unfolding(crate::specs::Hits::neighbours))]
fn are_neighbours(closed: bool, last: usize, i: usize, j: usize) -> bool
    ensures { result ≡ neighbours closed last i j }
{
    follows(i, j)
        || follows(j, i)
        || (closed && (is_across_seam(last, i, j) || is_across_seam(last, j, i)))
}

// Whether a hit is near the last kept one, g, and on a neighbouring edge.
#[tactic(auto, unfolding(crate::specs::Hits::nearby_neighbour))]
fn is_near(closed: bool, last: usize, g: Hit, h: Hit) -> bool
    ensures { result ≡ nearby_neighbour closed last g h }
{
    points::is_within(1e-8, h.t - g.t) && are_neighbours(closed, last, g.edge, h.edge)
}

// What is seen of sorted hits, those near the last kept one and on a neighbouring edge dropped.
pub(crate) fn kept_hits(hits: &[Hit], closed: bool, last_edge: usize) -> Seen
    ensures { result ≡ seen_of (dropped (nearby_neighbour closed last_edge) hits.now) }
{
    let Some((first, rest)) = hits.split_first() else {
        return Seen::Nothing;
    };
    let mut last = *first;
    let mut seen = Seen::One(last);
    for hit in rest {
        if !is_near(closed, last_edge, last, *hit) {
            seen = hits::added(seen, *hit);
            last = *hit;
        }
    }
    seen
}
