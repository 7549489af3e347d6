// A run cut at every limit and gone on with, beside the single run whose limit is the sum. Before it, output, store and state are kept.
use crate::case::{Case, limit_of};
use crate::replay::limits::{Ran, Spent, plain_run, run};
use crate::table::word;

// Goes on from what a run left, by the function that word 4 of the line names. Units add up, and the edges are those of the run before.
fn gone_on(line: &[u8], from: &Ran, limit: u32, case: &mut Case) -> Ran {
    case.left = from.left;
    case.ask_by_name(word(line, 4), from.told[1] as usize, 0, limit);
    let [number, count, units, ..] = case.told;
    let [_, _, taken, found, first, second] = from.told;
    let sum = taken.wrapping_add(units);
    Ran {
        left: case.left,
        told: [number, count, sum, found, first, second],
    }
}

impl Ran {
    // Whether a run that went on from another told and left what the single run did; with its state, or where it isn't spent with the state that it went on from.
    fn is_single(&self, from: &Ran, single: &Ran) -> bool {
        let same_state = if self.is_spent() { single } else { from };
        self.told == single.told
            && self.left.has_same_numbers(&single.left)
            && self.left.has_same_state(&same_state.left)
    }
}

// Whether a spent run, gone on with to the end, is the plain run.
fn ends_plain(line: &[u8], spent: &Ran, plain: &Ran, end: u32, case: &mut Case) -> bool {
    gone_on(line, spent, end, case).is_single(spent, plain)
}

// Whether a run that was spent at a limit, gone on with each second limit below the rest, is the single run whose limit is the sum; and where it is spent again, the plain run in a third piece.
fn is_gone_on(
    line: &[u8],
    first: &Ran,
    limit: u32,
    plain: &Ran,
    end: u32,
    case: &mut Case,
) -> bool {
    for second in 0..end.saturating_sub(limit) {
        let single = run(line, 2, limit.saturating_add(second), case);
        let ran = gone_on(line, first, second, case);
        if !ran.is_single(first, &single) {
            return false;
        }
        if ran.is_spent() && !ends_plain(line, &ran, plain, end, case) {
            return false;
        }
    }
    true
}

// Whether the run that word 2 of the line names keeps to the plain one at each limit from word 1 up to two above its units, and where it is spent goes on as the single run.
pub(crate) fn keep(line: &[u8], case: &mut Case) -> bool {
    let Some(plain) = plain_run(line, 2, case) else {
        return false;
    };
    let end = (plain.told[2] % 1000) as u32 + 3;
    for limit in limit_of(line, 1)..end {
        let first = run(line, 2, limit, case);
        if !first.keeps(&plain, Spent::FirstCircles, limit, &case.kept) {
            return false;
        }
        if first.is_spent() && !is_gone_on(line, &first, limit, &plain, end, case) {
            return false;
        }
    }
    true
}
