// The end of a list of circles in a store that passed the entry tests.
ghost use Rattle.std.specs.Prelude.{◌≡◌, ◌≤◌, Ok};
ghost use Rattle.inscribed.specs.Store.{circles_of};
ghost use Rattle.lists.specs.Ends.{last_pair};

use crate::ends::Pair;
use inscribed::checked::CirclesInUse;

// The last two circles.
#[tactic(auto, using(crate::proofs::ends::Laws::last_pair_lem))]
pub fn last_pair(circles: &CirclesInUse<'_>) -> Pair
    requires { 2 ≤ circles.now.count }
    ensures { last_pair (circles_of circles.now.store.now circles.now.count) ≡ Ok result }
{
    Pair {
        before: circles.at(circles.count - 2),
        last: circles.at(circles.count - 1),
    }
}
