// What is handed in.
ghost use Rattle.std.specs.Prelude.{◌≡◌};
ghost use Rattle.inscribed.specs.Store.{circle_at};
ghost use Rattle.rummyteak.specs.Told.{given_line, given_state};

use camber::state::{MarchState, WAITING_NUMBERS};
use inscribed::Inscribed;
use inscribed::store::WIDTH;
use line2::Line2;
use points::{Point2, Vector2};

// The circle of a circle's numbers.
pub(crate) fn circle_of(numbers: &[f64; WIDTH]) -> Inscribed
    ensures { result ≡ circle_at numbers.now 0 }
{
    inscribed::checked::circle_at(numbers, 0)
}

// The line of a line's numbers.
pub(crate) fn line(ox: f64, oy: f64, dx: f64, dy: f64) -> Line2
    ensures { result ≡ given_line ox oy dx dy }
{
    Line2 {
        origin: Point2 { x: ox, y: oy },
        direction: Vector2 { x: dx, y: dy },
    }
}

/// A march's state as C has it: plain numbers of eight bytes, with no byte between them, so that every content is a state. It was refining where `refining` isn't 0, and 1 is written.
#[repr(C)]
#[derive(Clone, Copy)]
pub struct StateCells {
    pub refining: usize,
    pub fraction: usize,
    pub count: usize,
    pub waiting: [f64; WAITING_NUMBERS],
}

// The state of a state's cells.
pub(crate) fn state(cells: &StateCells) -> MarchState
    ensures { result ≡ given_state cells.now }
{
    let waiting = cells.waiting;
    MarchState {
        is_refining: 0 < cells.refining,
        fraction: cells.fraction,
        count: cells.count,
        waiting,
    }
}
