// Whether both ends of a section that was tested lie beyond the end of its circles that is meant.
ghost use Rattle.std.specs.Prelude.{◌≡◌, ◌≤◌, Ok};
ghost use Rattle.inscribed.specs.Store.{circles_of};
ghost use Rattle.lists.specs.Ends.{last_pair};
ghost use Rattle.edges.specs.Edges.{end_last, beyond_line, ends_beyond};

use curve2::checked::{Curve2, vertex_at};
use errors::Refusal;
use inscribed::checked::CirclesInUse;
use line2::Line2;
use lists::ends;
use lists::ends::Pair;

// The two circles at the end that is meant, the outermost last.
fn end_pair(circles: &CirclesInUse<'_>, at_front: bool) -> Pair
    requires { 2 ≤ circles.now.count }
    ensures { last_pair (end_last at_front (circles_of circles.now.store.now circles.now.count)) ≡ Ok result }
{
    if at_front {
        Pair {
            before: circles.at(1),
            last: circles.at(0),
        }
    } else {
        lists::checked::last_pair(circles)
    }
}

// Whether both ends of the section lie beyond a line.
#[tactic(auto, unfolding(crate::specs::Edges::beyond_line))]
fn is_beyond(section: &Curve2<'_>, clip: Line2) -> Result<bool, Refusal>
    ensures { result ≡ beyond_line section.now.points.now clip }
{
    let front = vertex_at(section.points, 0);
    let back = vertex_at(section.points, section.last_vertex());
    Ok(0.0 < clip.scalar_project(front)? && 0.0 < clip.scalar_project(back)?)
}

// Whether both ends of an open section lie beyond the end of the circles that is meant.
#[tactic(auto, unfolding(crate::specs::Edges::ends_beyond))]
pub(crate) fn is_beyond_end(
    section: &Curve2<'_>,
    circles: &CirclesInUse<'_>,
    at_front: bool,
) -> Result<bool, Refusal>
    ensures { result ≡ ends_beyond section.now.points.now (end_last at_front (circles_of circles.now.store.now circles.now.count)) }
{
    if circles.count < 2 {
        return Err(Refusal::TooFewCircles);
    }
    is_beyond(section, ends::clip_line(end_pair(circles, at_front))?)
}
