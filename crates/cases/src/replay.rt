// What the lines of a table do: they set what is handed in, ask the library, and compare what it tells and leaves.
use crate::case::{Case, SLOTS, limit_of};
use crate::numbers::{are_same, copies, holds, numbers_from, rank, row, write};
use crate::state;
use crate::table::{count, is_blank, whole, word};
use inscribed::store::WIDTH;
use limits::Spent;

mod limits;
mod pauses;
mod places;
mod sums;

// The part of some numbers that has a length from a place on; nothing where there are fewer.
fn part(numbers: &[f64], at: usize, len: usize) -> &[f64] {
    match numbers.split_at_checked(at) {
        Some((_, rest)) => &rest[..len.min(rest.len())],
        None => &[],
    }
}

// Whether the words told are those of a line.
fn is_told(case: &Case, line: &[u8]) -> bool {
    let mut words = line.split(is_blank).skip(1);
    // No `all`: its closure can't capture the words that are left.
    for told in case.told {
        if told != words.next().map_or(0, whole) {
            return false;
        }
    }
    true
}

// Does what a line says, and tells whether it came out right.
pub(crate) fn is_right(line: &[u8], case: &mut Case) -> bool {
    match word(line, 0) {
        b"section" => case.section_len = write(&mut case.section, line, 1),
        b"row" => {
            case.section_len = count(line, 1).min(case.section.len());
            let section = &mut case.section[..];
            row(&mut section[..case.section_len]);
        }
        b"args" => {
            write(&mut case.args, line, 1);
        }
        b"store" => case.set_store(line),
        b"room" => case.set_output(line),
        b"rank" => {
            let len = count(line, 1).min(SLOTS) * WIDTH;
            let store = &mut case.left.store[..];
            rank(&mut store[..len]);
        }
        b"copies" => {
            let len = count(line, 1).min(SLOTS) * WIDTH;
            let circle = numbers_from(&case.args, 2);
            let store = &mut case.left.store[..];
            copies(&mut store[..len], circle);
        }
        b"list" => case.set_list(line),
        b"state" => case.left.state = state::written(line),
        b"waiting" => case.left.state = state::of_store(line, &case.left.store),
        b"keep" => case.kept = case.left,
        b"ask" => return case.ask(line, 1, limit_of(line, 4)),
        b"told" => return is_told(case, line),
        b"gives" => return holds(&case.left.out, line, case.out_mark),
        b"leaves" => return holds(&case.left.store, line, case.store_mark),
        b"holds" => return state::is_same(&case.left.state, &state::written(line)),
        b"stays" => return case.left.has_same_state(&case.kept),
        b"same" => {
            let len = count(line, 3);
            let left = part(&case.left.store, count(line, 1), len);
            return are_same(left, part(&case.kept.store, count(line, 2), len));
        }
        b"bad" => return places::are_bad(line, case),
        b"limits" => return limits::keep(line, Spent::FirstCircles, case),
        b"fits" => return limits::keep(line, Spent::Anything, case),
        b"thins" => return limits::keep(line, Spent::AsBefore(count(line, 3)), case),
        b"agree" => return limits::agree(line, case),
        b"slots" => return limits::fill(line, case),
        b"pauses" => return pauses::keep(line, case),
        b"sample" => return sums::sample(line),
        b"root" => return sums::root(line),
        b"roots" => return sums::roots(line),
        _ => return false,
    }
    true
}
