// The end of a list of circles: the line that clips it, and the ray on which the camber line leaves it.
ghost use Rattle.std.specs.Prelude.{◌≡◌};
ghost use Rattle.lists.specs.Ends.{faced_line, middle_line, clip_line, end_camber_ray};

use errors::Refusal;
use inscribed::Inscribed;
use line2::Line2;
use line2::surface2::SurfacePoint2;
use points::{AngleDir, Vector2};

// The last two circles of a list.
#[derive(Clone, Copy)]
pub struct Pair {
    pub before: Inscribed,
    pub last: Inscribed,
}

// The line through the middle of a circle's contacts, along the contact direction turned, normalised.
#[tactic(auto, unfolding(crate::specs::Ends::middle_line))]
fn middle_line(c: Inscribed) -> Result<Line2, Refusal>
    ensures { result ≡ middle_line c }
{
    let o = points::mid_point(c.contact1(), c.contact0())?;
    Line2::new_normalize(o, c.contact_dir().rot90(AngleDir::Ccw))
}

// The line, reversed where it faces away.
#[tactic(auto, unfolding(crate::specs::Ends::faced_line))]
fn faced_line(facing: Vector2, line: Line2) -> Result<Line2, Refusal>
    ensures { result ≡ faced_line facing line }
{
    let product = facing.dot(line.direction)?;
    Ok(if product < 0.0 { line.reversed() } else { line })
}

// The line that clips the end of a list: a point that projects above zero lies beyond the last circle.
#[tactic(auto, unfolding(crate::specs::Ends::clip_line))]
pub fn clip_line(pair: Pair) -> Result<Line2, Refusal>
    ensures { result ≡ clip_line pair }
{
    let facing = points::difference(pair.last.center(), pair.before.center())?;
    faced_line(facing, middle_line(pair.last)?)
}

// The outward ray at the end of the camber line.
#[tactic(auto, unfolding(crate::specs::Ends::end_camber_ray))]
pub fn end_camber_ray(pair: Pair) -> Result<SurfacePoint2, Refusal>
    ensures { result ≡ end_camber_ray pair }
{
    let clip = clip_line(pair)?;
    SurfacePoint2::new_normalize(pair.last.center(), clip.direction)
}
