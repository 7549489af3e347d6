// The checks by a vector, on circles in use: whether they have to be turned, or their contacts swapped.
ghost use Rattle.std.specs.Prelude.{◌≡◌};
ghost use Rattle.inscribed.specs.Store.{circles_of};
ghost use Rattle.orient.specs.Orientation.{center_dot, less_forward, dir_fwd, vote_of, dir_upper};

use crate::voting::is_majority;
use errors::Refusal;
use inscribed::Inscribed;
use inscribed::checked::CirclesInUse;
use points::Vector2;

// A centre's coordinates against a direction.
#[tactic(auto, unfolding(crate::specs::Orientation::center_dot))]
fn center_dot(dir: Vector2, c: Inscribed) -> Result<f64, Refusal>
    ensures { result ≡ center_dot dir c }
{
    dir.dot(Vector2 { x: c.cx, y: c.cy })
}

// Whether the front lies less far in a direction than the back.
#[tactic(auto, unfolding(crate::specs::Orientation::less_forward))]
fn less_forward(dir: Vector2, front: Inscribed, back: Inscribed) -> Result<bool, Refusal>
    ensures { result ≡ less_forward dir front back }
{
    let a = center_dot(dir, front)?;
    let b = center_dot(dir, back)?;
    Ok(a < b)
}

// By a vector that points forward.
#[tactic(auto, unfolding(crate::specs::Orientation::dir_fwd))]
pub(crate) fn check_dir_fwd(circles: &CirclesInUse<'_>, dir: Vector2) -> Result<bool, Refusal>
    ensures { result ≡ dir_fwd dir (circles_of circles.now.store.now circles.now.count) }
{
    let ends = circles.front_and_back()?;
    less_forward(dir, ends.front, ends.back)
}

// Whether a circle votes for its contacts to be swapped.
#[tactic(auto, unfolding(crate::specs::Orientation::vote_of))]
fn vote(dir: Vector2, c: Inscribed) -> Result<bool, Refusal>
    ensures { result ≡ vote_of dir c }
{
    Ok(!errors::is_plus(dir.dot(c.contact_dir())?))
}

// By a vector that points to the upper side.
#[tactic(auto, unfolding(crate::specs::Orientation::dir_upper))]
pub(crate) fn check_dir_upper(circles: &CirclesInUse<'_>, dir: Vector2) -> Result<bool, Refusal>
    ensures { result ≡ dir_upper dir (circles_of circles.now.store.now circles.now.count) }
{
    is_majority(circles.count, |k| vote(dir, circles.at(k)))
}
