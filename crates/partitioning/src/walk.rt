// The walk from one station of a section to another, which puts the points that it gives the cleaning.
ghost use Rattle.std.specs.Prelude.{◌≡◌, ◌+◌, ◌*◌, ◌≤◌, ◌<◌, length};
ghost use Rattle.curve2.specs.Stations.{last_vertex};
ghost use Rattle.cleaning.specs.Code.{put};
ghost use Rattle.partitioning.specs.Walk.{last_index, reached, given_between};
ghost use Rattle.partitioning.specs.Code.{Walkable, IsOn, working_at, next_of, turn_of, Room, held, leg_onto, listed_leg, front_onto, walk_onto, listed_put, Laid};

use crate::Ends;
use cleaning::Kept;
use cleaning::checked::put;
use curve2::checked::{Curve2, edge_length};
use curve2::{CurveStation2, plain_dist};
use errors::{Refusal, watch};

// Where the walk is: a station, and the lengths at both vertices of its edge. That they are its section's lengths is asked of each function (`IsOn`),
// since to keep it as a ghost field each would have to hold the section as well.
#[derive(Clone, Copy)]
pub struct Working {
    pub station: CurveStation2,
    pub m: f64,
    pub n: f64,
}

// What a leg put, and whether it went over the last index. What it put stands in both cases, so an enum of them would be no plainer.
#[derive(Clone, Copy)]
pub struct LegKept {
    pub kept: Kept,
    pub over: bool,
}

// A walk between two stations of a section.
#[derive(Clone, Copy)]
pub struct Walk<'a> {
    pub section: Curve2<'a>,
    pub ends: Ends,
    pub ghost walkable: { Walkable section.points.now section.tol ends },
}

impl Walk<'_> {
    // ---- one turn

    // A station, with the lengths at both vertices of its edge.
    fn working_at(&self, station: CurveStation2) -> Working
        requires { station.index < last_vertex self.now.section.points.now }
        ensures value { result ≡ working_at self.now.section.points.now station }
        ensures on { IsOn self.now.section.points.now result }
    {
        let m = sections::checked::length_to(&self.section, station.index);
        let n = edge_length(self.section.points, 2 * station.index) + m;
        Working { station, m, n }
    }

    // Whether the walk ends here: the end lies on the edge behind.
    #[tactic(auto, unfolding(crate::specs::Walk::reached, sections::specs::Places::length_along))]
    fn is_reached(&self, w: Working) -> Result<bool, Refusal>
        requires { IsOn self.now.section.points.now w }
        ensures { result ≡ reached self.now.section.points.now self.now.ends w.station }
    {
        let at = watch(w.m + (w.n - w.m) * w.station.fraction)?;
        Ok(at <= self.ends.to && self.ends.end.index < w.station.index + 1)
    }

    // The next vertex. The last one lies on the same edge as the one before it.
    #[tactic(auto, unfolding(crate::specs::Code::next_of))]
    fn next(&self, w: Working) -> Result<Working, Refusal>
        requires { IsOn self.now.section.points.now w }
        ensures { result ≡ next_of self.now.section.points.now self.now.section.tol w.station }
    {
        let station = self.section.at_vertex(w.station.index + 1)?;
        if station.index == w.station.index {
            Ok(Working { station, ..w })
        } else {
            let n = edge_length(self.section.points, 2 * station.index) + w.n;
            Ok(Working { station, m: w.n, n })
        }
    }

    // The end is reached, or the next vertex.
    #[tactic(auto, unfolding(crate::specs::Code::turn_of))]
    fn take_turn(&self, w: Working) -> Result<Option<Working>, Refusal>
        requires { IsOn self.now.section.points.now w }
        ensures { result ≡ turn_of self.now.section.points.now self.now.section.tol self.now.ends w.station }
    {
        if self.is_reached(w)? {
            Ok(None)
        } else {
            Ok(Some(self.next(w)?))
        }
    }

    // ---- a leg

    // The points behind a station, put one after the other, until the end is reached or no vertex is left before the last index.
    fn leg(
        &self,
        left: usize,
        from: Working,
        points: &mut [f64],
        before: Kept,
    ) -> Result<LegKept, Refusal>
        requires on { IsOn self.now.section.points.now from }
        requires room { Room self.now.section.points.now self.now.ends left from.station before.count (length points.old) }
        ensures { listed_leg result points.new ≡ leg_onto self.now.section.points.now self.now.section.tol self.now.ends left from.station (held before points.old) }
    {
        let mut w = from;
        let mut kept = before;
        for _turn in 0..left {
            match self.take_turn(w)? {
                None => return Ok(LegKept { kept, over: false }),
                Some(next) => {
                    kept = put(points, kept.count, next.station.point);
                    w = next;
                },
            }
        }
        Ok(LegKept { kept, over: true })
    }

    // ---- the walk

    // The last vertex that a leg goes to: a closed section's last point is its first.
    fn last_index(&self) -> usize
        ensures { result ≡ last_index self.now.section.points.now self.now.section.tol }
    {
        let last = self.section.last_vertex();
        if self.section.is_closed() {
            last - 1
        } else {
            last
        }
    }

    // From the front to the end.
    fn from_front(&self, points: &mut [f64], before: Kept) -> Result<Kept, Refusal>
        requires { 2 * (before.count + 1 + self.now.ends.end.index) ≤ length points.old }
        ensures { listed_put result points.new ≡ front_onto self.now.section.points.now self.now.section.tol self.now.ends (held before points.old) }
    {
        let front = self.section.at_front()?;
        let first = put(points, before.count, front.point);
        let w = self.working_at(front);
        let leg = self.leg(self.last_index(), w, points, first)?;
        Ok(leg.kept)
    }

    // From the start to the end, over the seam where that lies between them.
    fn walk_between(&self, points: &mut [f64]) -> Result<Kept, Refusal>
        requires { length self.now.section.points.now ≤ length points.old }
        ensures { listed_put result points.new ≡ walk_onto self.now.section.points.now self.now.section.tol self.now.ends (put 0 self.now.ends.start.point points.old) }
    {
        let w = self.working_at(self.ends.start);
        let left = self.last_index() - self.ends.start.index;
        let first = put(points, 0, self.ends.start.point);
        let leg = self.leg(left, w, points, first)?;
        if leg.over && self.ends.to < self.ends.from {
            self.from_front(points, leg.kept)
        } else {
            Ok(leg.kept)
        }
    }

    // The points that the cleaning is given: the end's is the last of them only where it is farther than the tolerance from the one before it.
    pub(crate) fn give_between(&self, points: &mut [f64]) -> Result<usize, Refusal>
        requires { length self.now.section.points.now + 2 ≤ length points.old }
        ensures { Laid (given_between self.now.section.points.now self.now.section.tol self.now.ends) points.old points.new result }
    {
        let k = self.walk_between(points)?;
        if self.section.tol < plain_dist(self.ends.end.point, k.last) {
            Ok(put(points, k.count, self.ends.end.point).count)
        } else {
            Ok(k.count)
        }
    }
}
