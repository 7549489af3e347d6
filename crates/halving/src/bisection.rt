// The halving between the two ends of a line, and the circle between the last two.
ghost use Rattle.std.specs.Prelude.{◌≡◌};
ghost use Rattle.halving.specs.Halving.{moved_ends, halved, circle_between, is_wide, halving};

use curve2::checked::Curve2;
use errors::Refusal;
use inscribed::Inscribed;
use line2::Line2;
use points::{Point2, Vector2};

// More halvings than the search takes, as `halving-over` proves.
const MOST_HALVINGS: usize = 52;

// An end of the search: its fraction of the line, its distance from the section, and the section's nearest point.
#[derive(Clone, Copy)]
pub struct InscribedEnd {
    pub f: f64,
    pub d: f64,
    pub p: Point2,
}

// The upper and the lower end.
#[derive(Clone, Copy)]
pub struct SearchEnds {
    pub pos: InscribedEnd,
    pub neg: InscribedEnd,
}

// The ends after the point at a fraction, whose nearest point is p, took the place of one of them.
#[tactic(auto, unfolding(crate::specs::Halving::moved_ends))]
fn moved_ends(
    direction: Vector2,
    ends: SearchEnds,
    fraction: f64,
    working: Point2,
    p: Point2,
) -> Result<SearchEnds, Refusal>
    ensures { result ≡ moved_ends direction ends fraction working p }
{
    let distance = points::dist(working, p)?;
    let product = (p - working).dot(direction)?;
    let end = InscribedEnd {
        f: fraction,
        d: distance,
        p,
    };
    if 0.0 < product {
        Ok(SearchEnds {
            pos: end,
            neg: ends.neg,
        })
    } else {
        Ok(SearchEnds {
            pos: ends.pos,
            neg: end,
        })
    }
}

// One halving.
#[tactic(auto, unfolding(crate::specs::Halving::halved, crate::specs::Halving::moved_ends))]
fn halved(section: &Curve2<'_>, line: Line2, ends: SearchEnds) -> Result<SearchEnds, Refusal>
    ensures { result ≡ halved section.now.points.now line ends }
{
    let fraction = (ends.pos.f + ends.neg.f) * 0.5;
    let working = line.at(fraction)?;
    let closest = queries::checked::closest_point(section, working)?;
    moved_ends(line.direction, ends, fraction, working, closest.at.point)
}

// The circle between the last two ends, with its contacts' lengths along.
#[tactic(auto, unfolding(crate::specs::Halving::circle_between))]
fn circle_between(section: &Curve2<'_>, line: Line2, ends: SearchEnds) -> Result<Inscribed, Refusal>
    ensures { result ≡ circle_between section.now.points.now line ends }
{
    let center = line.at((ends.pos.f + ends.neg.f) * 0.5)?;
    let p0 = ends.neg.p;
    let p1 = ends.pos.p;
    let along = sections::checked::closest_lengths(section, p0, p1)?;
    Ok(Inscribed {
        cx: center.x,
        cy: center.y,
        r: (ends.pos.d + ends.neg.d) * 0.5,
        p0x: p0.x,
        p0y: p0.y,
        p1x: p1.x,
        p1y: p1.y,
        l0: along.first,
        l1: along.second,
    })
}

// Whether the part of the line between the ends is longer than the resolve tolerance.
fn is_wide(resolve: f64, len: f64, ends: SearchEnds) -> bool
    ensures { result ≡ is_wide resolve len ends }
{
    resolve < (ends.pos.f - ends.neg.f) * len
}

// Halves until the ends are near enough.
pub(crate) fn halving_loop(
    section: &Curve2<'_>,
    line: Line2,
    resolve: f64,
    len: f64,
    first: SearchEnds,
) -> Result<Inscribed, Refusal>
    ensures { result ≡ halving section.now.points.now line resolve len 52 first }
{
    let mut ends = first;
    for turn in 0..MOST_HALVINGS {
        if !is_wide(resolve, len, ends) {
            return circle_between(section, line, ends);
        }
        ends = halved(section, line, ends)?;
    }
    circle_between(section, line, ends)
}
