// The search for the place at a length along a section.
ghost use Rattle.std.specs.Prelude.{◌≡◌};
ghost use Rattle.points.specs.Numbers.{f0};
ghost use Rattle.curve2.specs.Section.{points_of};
ghost use Rattle.sections.specs.Places.{inside_edge, at_length_from};

use curve2::CurveStation2;
use curve2::checked::{Curve2, edge_length, vertex_at};
use errors::{Refusal, watch};
use points::Point2;

// The station at a length inside an edge, from p at length m to q at length n.
#[tactic(auto, unfolding(crate::specs::Places::inside_edge))]
fn inside_edge(
    index: usize,
    p: Point2,
    q: Point2,
    m: f64,
    n: f64,
    length: f64,
) -> Result<CurveStation2, Refusal>
    ensures { result ≡ inside_edge index p q m n length }
{
    let along = length - m;
    let direction = (q - p).normalize()?;
    let fraction = watch(along / (n - m))?;
    let point = watch(p + direction * along)?;
    Ok(CurveStation2 {
        point,
        direction,
        index,
        fraction,
    })
}

// The station at a length from 0 to the whole: the first vertex that has it, or inside the first edge that ends beyond it.
pub(crate) fn length_found(section: &Curve2<'_>, length: f64) -> Result<CurveStation2, Refusal>
    ensures { result ≡ at_length_from section.now.points.now section.now.tol length 0 f0 (points_of section.now.points.now) }
{
    let last = section.last_vertex();
    let mut m = 0.0;
    for i in 0..last {
        if m == length {
            return section.at_vertex(i);
        }
        let n = edge_length(section.points, 2 * i) + m;
        if length < n {
            let p = vertex_at(section.points, i);
            let q = vertex_at(section.points, i + 1);
            return inside_edge(i, p, q, m, n, length);
        }
        m = n;
    }
    section.at_vertex(last)
}
