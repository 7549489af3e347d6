// The points of a stretch between two lengths along a section whose entry tests passed.
ghost use Rattle.std.specs.Prelude.{◌≡◌, ◌+◌, ◌≤◌, length};
ghost use Rattle.curve2.specs.Entry.{IsSection};
ghost use Rattle.partitioning.specs.Walk.{ends_of, is_empty, given_of};
ghost use Rattle.partitioning.specs.Code.{enough_between, AreGiven};

use crate::Ends;
use crate::walk::Walk;
use cleaning::checked::Uncleaned;
use curve2::checked::Curve2;
use errors::Refusal;
use sections::checked::{at_length, length_along};

// The stations at both lengths.
#[tactic(auto, unfolding(crate::specs::Walk::ends_of))]
fn ends_at(section: &Curve2<'_>, l0: f64, l1: f64) -> Result<Ends, Refusal>
    requires { IsSection section.now.points.now section.now.tol }
    ensures { result ≡ ends_of section.now.points.now section.now.tol l0 l1 }
{
    let start = at_length(section, l0)?;
    let end = at_length(section, l1)?;
    let to = length_along(section, end.index, end.fraction)?;
    let from = length_along(section, start.index, start.fraction)?;
    Ok(Ends {
        start,
        end,
        from,
        to,
    })
}

// Whether there is nothing between the ends: 21.
fn is_empty(section: &Curve2<'_>, l0: f64, l1: f64, ends: Ends) -> bool
    ensures { result ≡ is_empty section.now.points.now section.now.tol l0 l1 ends }
{
    points::is_within(section.tol, l1 - l0) || !section.is_closed() && ends.to < ends.from
}

// The points between the ends: 21 where fewer than two of them are kept.
fn give_enough<'a>(walk: &Walk<'_>, points: &'a mut [f64]) -> Result<Uncleaned<'a>, Refusal>
    requires { length walk.now.section.points.now + 2 ≤ length points.old }
    ensures { AreGiven (enough_between walk.now.section.points.now walk.now.section.tol walk.now.ends) walk.now.section.tol result }
{
    let count = walk.give_between(points)?;
    let given = Uncleaned {
        points: &points[..2 * count],
        tol: walk.section.tol,
    };
    if given.is_too_few() {
        Err(Refusal::EmptyStretch)
    } else {
        Ok(given)
    }
}

// The points of the stretch between two lengths, put one after the other from the start of `points` on.
pub(crate) fn give<'a>(
    section: &Curve2<'_>,
    l0: f64,
    l1: f64,
    points: &'a mut [f64],
) -> Result<Uncleaned<'a>, Refusal>
    requires section { IsSection section.now.points.now section.now.tol }
    requires room { length section.now.points.now + 2 ≤ length points.old }
    ensures { AreGiven (given_of section.now.points.now section.now.tol l0 l1) section.now.tol result }
{
    let ends = ends_at(section, l0, l1)?;
    if is_empty(section, l0, l1, ends) {
        return Err(Refusal::EmptyStretch);
    }
    let walk = Walk {
        section: *section,
        ends,
    };
    give_enough(&walk, points)
}
