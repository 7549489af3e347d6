// The moves of refinements and marches while circles wait.
ghost use Rattle.std.specs.Prelude.{◌≡◌};
ghost use Rattle.circles.specs.Trial.{trial};
ghost use Rattle.refine.specs.Machine.{with_room};

use crate::MOST_WAITING;
use curve2::checked::Curve2;
use errors::Refusal;
use inscribed::Inscribed;
use inscribed::checked::CirclesStore;

// The trial of a waiting circle against the last accepted one, `last`, while `w` wait: 16 where one more can't wait, 15 where no slot is free.
#[tactic(auto, unfolding(crate::specs::Machine::with_room))]
pub(crate) fn tried(
    section: &Curve2<'_>,
    tol: f64,
    circles: &CirclesStore<'_>,
    w: usize,
    last: Inscribed,
    top: Inscribed,
) -> Result<Option<Inscribed>, Refusal>
    ensures { result ≡ with_room circles.now.slots circles.now.count w (trial section.now.points.now tol last top) }
{
    match circles::checked::inscribed_refined(section, tol, last, top)? {
        Some(_) if MOST_WAITING <= w => Err(Refusal::StackFull),
        None if circles.slots <= circles.count => Err(Refusal::StoreFull),
        trial => Ok(trial),
    }
}
