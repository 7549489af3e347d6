// How an answer is told by the C interface: its number is returned, and its values are written where there is a result.
ghost use Rattle.std.specs.Prelude.{◌≡◌, List, Float};
ghost use Rattle.errors.specs.Answer.{number};
ghost use Rattle.camber.specs.Going.{listed_going};
ghost use Rattle.camber.specs.March.{listed_march};
ghost use Rattle.inscribed.specs.Store.{numbers_of};
ghost use Rattle.refine.specs.Report.{listed_end, listed_called};
ghost use Rattle.rummyteak.specs.Told.{told_as, told, line_numbers, crossing_cells, crossing_left, circle_on_line_left, start_cells, edges_left, start_left, state_left, station_cells, station_left, trial_cells, trial_left, end_cells, ends_left, curve_cells, piece_cells, pieces_cells, pieces_left, told_run, point_at_end, point_left};

use crate::given::StateCells;
use camber::going::GoneOn;
use camber::march::MarchRun;
use camber::state::MarchState;
use circles::CircleOnLine;
use cleaning::Curve;
use curve2::CurveStation2;
use errors::Refusal;
use inscribed::store::WIDTH;
use inscribed::{FrontAndBack, Inscribed};
use line2::Line2;
use partitioning::{Piece, Pieces};
use points::Point2;
use queries::{Crossing, HitEdges};
use refine::{Run, RunEnd};

// The number of an answer: 0 for a result.
pub(crate) fn number<T: Copy>(a: Result<T, Refusal>) -> u32
    ensures { result ≡ number a }
{
    match a {
        Ok(_) => 0,
        Err(r) => u32::from(r),
    }
}

// A value as it is.
#[tactic(auto, unfolding(crate::specs::Told::told_as))]
pub(crate) fn tell<T: Copy>(a: Result<T, Refusal>, value: &mut T) -> u32
    ensures { (record { number = result; left = value.new }) ≡ told value.old a }
{
    match a {
        Ok(x) => {
            *value = x;
            0
        }
        Err(r) => u32::from(r),
    }
}

// A station: point, direction and fraction, and its edge.
#[tactic(auto, unfolding(crate::specs::Told::told_as))]
pub(crate) fn tell_station(
    a: Result<CurveStation2, Refusal>,
    station: &mut [f64; 5],
    index: &mut usize,
) -> u32
    ensures { (record { number = result; left = station_cells station.new index.new }) ≡ told_as station_left (station_cells station.old index.old) a }
{
    if let Ok(s) = a {
        *station = [
            s.point.x,
            s.point.y,
            s.direction.x,
            s.direction.y,
            s.fraction,
        ];
        *index = s.index;
    }
    number(a)
}

// A crossing: origin and direction, and the two edges.
#[tactic(auto, unfolding(crate::specs::Told::told_as))]
pub(crate) fn tell_crossing(
    a: Result<Crossing, Refusal>,
    crossing: &mut [f64; 4],
    edges: &mut [usize; 2],
) -> u32
    ensures { (record { number = result; left = crossing_cells crossing.new edges.new }) ≡ told_as crossing_left (crossing_cells crossing.old edges.old) a }
{
    if let Ok(c) = a {
        *crossing = [
            c.line.origin.x,
            c.line.origin.y,
            c.line.direction.x,
            c.line.direction.y,
        ];
        *edges = [c.edges.first, c.edges.second];
    }
    number(a)
}

// A line: origin and direction.
#[tactic(auto, unfolding(crate::specs::Told::told_as))]
pub(crate) fn tell_line(a: Result<Line2, Refusal>, line: &mut [f64; 4]) -> u32
    ensures { (record { number = result; left = line.new }) ≡ told_as line_numbers line.old a }
{
    if let Ok(l) = a {
        *line = [l.origin.x, l.origin.y, l.direction.x, l.direction.y];
    }
    number(a)
}

// A circle.
#[tactic(auto, unfolding(crate::specs::Told::told_as))]
pub(crate) fn tell_circle(a: Result<Inscribed, Refusal>, circle: &mut [f64; WIDTH]) -> u32
    ensures { (record { number = result; left = circle.new }) ≡ told_as numbers_of circle.old a }
{
    if let Ok(c) = a {
        *circle = c.numbers();
    }
    number(a)
}

// The circle on a line, and the edges of the line's crossing.
#[tactic(auto, unfolding(crate::specs::Told::told_as))]
pub(crate) fn tell_circle_on_line(
    a: Result<CircleOnLine, Refusal>,
    circle: &mut [f64; WIDTH],
    edges: &mut [usize; 2],
) -> u32
    ensures { (record { number = result; left = crossing_cells circle.new edges.new }) ≡ told_as circle_on_line_left (crossing_cells circle.old edges.old) a }
{
    if let Ok(c) = a {
        *circle = c.circle.numbers();
        *edges = [c.edges.first, c.edges.second];
    }
    number(a)
}

// The circle of a trial, and whether there is one.
#[tactic(auto, unfolding(crate::specs::Told::told_as))]
pub(crate) fn tell_trial(
    a: Result<Option<Inscribed>, Refusal>,
    circle: &mut [f64; WIDTH],
    added: &mut bool,
) -> u32
    ensures { (record { number = result; left = trial_cells circle.new added.new }) ≡ told_as (trial_left circle.old) (trial_cells circle.old added.old) a }
{
    if let Ok(trial) = a {
        if let Some(c) = trial {
            *circle = c.numbers();
        }
        *added = trial.is_some();
    }
    number(a)
}

// The first and the last circle.
#[tactic(auto, unfolding(crate::specs::Told::told_as))]
pub(crate) fn tell_ends(
    a: Result<FrontAndBack, Refusal>,
    front: &mut [f64; WIDTH],
    back: &mut [f64; WIDTH],
) -> u32
    ensures { (record { number = result; left = end_cells front.new back.new }) ≡ told_as ends_left (end_cells front.old back.old) a }
{
    if let Ok(e) = a {
        *front = e.front.numbers();
        *back = e.back.numbers();
    }
    number(a)
}

// A curve: how many points it has, and whether it is closed. The output was written by the call.
#[tactic(auto, unfolding(crate::specs::Told::told_as))]
pub(crate) fn tell_curve(a: Result<Curve, Refusal>, count: &mut usize, is_closed: &mut bool) -> u32
    ensures { (record { number = result; left = curve_cells count.new is_closed.new }) ≡ told (curve_cells count.old is_closed.old) a }
{
    if let Ok(c) = a {
        *count = c.count;
        *is_closed = c.is_closed;
    }
    number(a)
}

// A piece: how many points it has, whether it is closed, and how many points its walk gave. The output was written by the call.
#[tactic(auto, unfolding(crate::specs::Told::told_as))]
pub(crate) fn tell_piece(
    a: Result<Piece, Refusal>,
    count: &mut usize,
    is_closed: &mut bool,
    given: &mut usize,
) -> u32
    ensures { (record { number = result; left = piece_cells count.new is_closed.new given.new }) ≡ told (piece_cells count.old is_closed.old given.old) a }
{
    if let Ok(p) = a {
        *count = p.count;
        *is_closed = p.is_closed;
        *given = p.given;
    }
    number(a)
}

// Both pieces of a split. The outputs were written by the call.
#[tactic(auto, unfolding(crate::specs::Told::told_as))]
pub(crate) fn tell_pieces(
    a: Result<Pieces, Refusal>,
    counts: &mut [usize; 2],
    are_closed: &mut [bool; 2],
    given: &mut [usize; 2],
) -> u32
    ensures { (record { number = result; left = pieces_cells counts.new are_closed.new given.new }) ≡ told_as pieces_left (pieces_cells counts.old are_closed.old given.old) a }
{
    if let Ok(p) = a {
        *counts = [p.first.count, p.second.count];
        *are_closed = [p.first.is_closed, p.second.is_closed];
        *given = [p.first.given, p.second.given];
    }
    number(a)
}

// A run: count and units, unless it was refused on entry. The store was written by the call.
#[tactic(auto, unfolding(crate::specs::Told::told_run))]
pub(crate) fn tell_run(a: Result<Run<()>, Refusal>, count: &mut usize, units: &mut u32) -> u32
    ensures { (store : List Float) → (record { number = result; count = count.new; units = units.new; store = store }) ≡ told_run count.old units.old (listed_called a store) }
{
    if let Ok(run) = a {
        *count = run.count;
        *units = run.units;
    }
    refine::number(a)
}

// Writes the edges of a march's start, where they were found, and whether they were.
#[tactic(auto, unfolding(crate::specs::Told::edges_left))]
fn put_edges(start: Option<HitEdges>, edges: &mut [usize; 2], found: &mut bool)
    ensures { start_cells edges.new found.new ≡ edges_left edges.old start }
{
    if let Some(e) = start {
        *edges = [e.first, e.second];
    }
    *found = start.is_some();
}

// The edges of a march's start, unless it was refused on entry.
#[tactic(auto, unfolding(crate::specs::Told::start_after))]
pub(crate) fn tell_edges(a: Result<MarchRun, Refusal>, edges: &mut [usize; 2], found: &mut bool)
    ensures { (store : List Float) → start_cells edges.new found.new ≡ start_left (start_cells edges.old found.old) (listed_march a store) }
{
    if let Ok(m) = a {
        put_edges(m.edges, edges, found);
    }
}

// Writes a state, where one is handed out.
#[tactic(auto, unfolding(crate::specs::Told::state_left))]
fn put_state(a: Option<MarchState>, state: &mut StateCells)
    ensures { state.new ≡ state_left state.old a }
{
    if let Some(s) = a {
        let waiting = s.waiting;
        *state = StateCells {
            refining: usize::from(s.is_refining),
            fraction: s.fraction,
            count: s.count,
            waiting,
        };
    }
}

// The state of a spent march.
#[tactic(auto, unfolding(crate::specs::Told::state_left))]
pub(crate) fn tell_march_state(a: Result<MarchRun, Refusal>, state: &mut StateCells)
    ensures { (store : List Float) → state.new ≡ state_left state.old (listed_march a store).state }
{
    if let Ok(m) = a {
        put_state(m.state, state);
    }
}

// The state of a spent going on.
#[tactic(auto, unfolding(crate::specs::Told::state_left))]
pub(crate) fn tell_going_state(a: Result<GoneOn, Refusal>, state: &mut StateCells)
    ensures { (store : List Float) → state.new ≡ state_left state.old (listed_going a store).state }
{
    if let Ok(g) = a {
        put_state(g.state, state);
    }
}

// Writes the edge point of a fit, where it ends with one.
#[tactic(auto, unfolding(crate::specs::Told::point_at_end))]
fn put_point(point: &mut [f64; 2], end: RunEnd<Point2>)
    ensures { point.new ≡ point_at_end point.old (listed_end end) }
{
    if let RunEnd::Finished(p) = end {
        *point = [p.x, p.y];
    }
}

// A fit: the edge point where it ends with one, count and units, unless it was refused on entry.
#[tactic(auto, unfolding(crate::specs::Told::told_run, crate::specs::Told::point_left))]
pub(crate) fn tell_fit(
    a: Result<Run<Point2>, Refusal>,
    point: &mut [f64; 2],
    count: &mut usize,
    units: &mut u32,
) -> u32
    ensures store_after { (store : List Float) → (record { number = result; count = count.new; units = units.new; store = store }) ≡ told_run count.old units.old (listed_called a store) }
    ensures point_after { (store : List Float) → point.new ≡ point_left point.old (listed_called a store) }
{
    if let Ok(fit) = a {
        put_point(point, fit.end);
        *count = fit.count;
        *units = fit.units;
    }
    refine::number(a)
}
