// The state that a spent march hands out, and goes on from.
ghost use Rattle.std.specs.Prelude.{◌≡◌, ◌≤◌, nat_lt, length};
ghost use Rattle.inscribed.specs.Store.{circles_of};
ghost use Rattle.refine.specs.Report.{listed_end};
ghost use Rattle.refine.specs.Machine.{most_waiting};
ghost use Rattle.camber.specs.Paused.{waiting_numbers, state_with, bad_state};
ghost use Rattle.camber.specs.Code.{fraction_due, state_at_end};

use arrayvec::ArrayVec;
use inscribed::Inscribed;
use inscribed::checked::{circle_at, put_circle};
use inscribed::store::WIDTH;
use refine::{MOST_WAITING, RunEnd};

/// How many numbers the waiting circles of a state have room for: 64 circles of nine.
pub const WAITING_NUMBERS: usize = MOST_WAITING * WIDTH;

/// What a spent march or going on hands out, and what it goes on from. Any content is a state: `going::go_on` refuses with 27 a state that fails its test.
#[derive(Clone, Copy)]
pub struct MarchState {
    /// Whether circles wait to be refined; else the march was advancing.
    pub is_refining: bool,
    /// Which of the four fractions is due, 0 to 3, when advancing. 0 when refining, and not read then.
    pub fraction: usize,
    /// How many circles wait, at most 64: those that were being refined, the tried one among them.
    pub count: usize,
    /// The waiting circles, nine numbers each, the newest last. The numbers behind them are 0, and are not read.
    pub waiting: [f64; WAITING_NUMBERS],
}

// The numbers of the waiting circles.
fn waiting_numbers(waiting: &ArrayVec<Inscribed, MOST_WAITING>) -> [f64; WAITING_NUMBERS]
    ensures { result ≡ waiting_numbers waiting.now.items }
{
    let mut numbers = [0.0; WAITING_NUMBERS];
    for k in 0..waiting.len() {
        put_circle(&mut numbers, k, waiting[k]);
    }
    numbers
}

// The waiting circles of a state.
pub(crate) fn circles_waiting(
    numbers: &[f64; WAITING_NUMBERS],
    count: usize,
) -> ArrayVec<Inscribed, MOST_WAITING>
    requires { count ≤ most_waiting }
    ensures { result.items ≡ circles_of numbers.now count }
{
    let mut waiting: ArrayVec<Inscribed, MOST_WAITING> = ArrayVec::new();
    for k in 0..count {
        waiting.push(circle_at(numbers, k));
    }
    waiting
}

// The state of those that wait, or of an advance where none does.
fn state_of(due: usize, waiting: &ArrayVec<Inscribed, MOST_WAITING>) -> MarchState
    ensures { result ≡ state_with (nat_lt 0 (length waiting.now.items)) due waiting.now.items }
{
    let numbers = waiting_numbers(waiting);
    MarchState {
        is_refining: 0 < waiting.len(),
        fraction: due,
        count: waiting.len(),
        waiting: numbers,
    }
}

// The state that a run hands out: where it is spent.
#[tactic(auto, unfolding(crate::specs::Code::state_at_end))]
pub(crate) fn handed_out(
    end: RunEnd<()>,
    due: usize,
    waiting: &ArrayVec<Inscribed, MOST_WAITING>,
) -> Option<MarchState>
    ensures { result ≡ state_at_end (listed_end end) due waiting.now.items }
{
    match end {
        RunEnd::Spent => Some(state_of(due, waiting)),
        _ => None,
    }
}

// The fraction that is due: none while refining.
pub(crate) fn due_of(state: &MarchState) -> usize
    ensures { result ≡ fraction_due state.now }
{
    if state.is_refining { 0 } else { state.fraction }
}

// Test 27 of a state, with the count of circles in use.
#[tactic(auto, unfolding(crate::specs::Paused::bad_state))]
pub(crate) fn is_bad_state(state: &MarchState, count: usize) -> bool
    ensures { result ≡ bad_state state.now count }
{
    if MOST_WAITING < state.count {
        return true;
    }
    if inscribed::store::has_bad_within(&state.waiting, MOST_WAITING, state.count) || count == 0 {
        return true;
    }
    if state.is_refining {
        state.count == 0
    } else {
        0 < state.count || 3 < state.fraction
    }
}
