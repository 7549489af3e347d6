// The state of a march that the lines of a table set and compare.
use crate::numbers::{are_same, numbers_from, write};
use crate::table::{count, number, word};
use camber::state::WAITING_NUMBERS;
use rummyteak::given::StateCells;

// The state of a line's first three words behind its name, with these numbers.
fn with_numbers(line: &[u8], waiting: [f64; WAITING_NUMBERS]) -> StateCells {
    StateCells {
        refining: count(line, 1),
        fraction: count(line, 2),
        count: count(line, 3),
        waiting,
    }
}

// The state that a line writes: its numbers stand from word 5 on, and behind them the mark in word 4 alone.
pub(crate) fn written(line: &[u8]) -> StateCells {
    let mut waiting = [number(word(line, 4)); WAITING_NUMBERS];
    write(&mut waiting, line, 5);
    with_numbers(line, waiting)
}

// The same with the numbers of a store's first slots.
pub(crate) fn of_store(line: &[u8], store: &[f64]) -> StateCells {
    with_numbers(line, numbers_from(store, 0))
}

// A state that holds marks alone.
pub(crate) fn marked() -> StateCells {
    StateCells {
        refining: 12345,
        fraction: 12345,
        count: 12345,
        waiting: [12345.0; WAITING_NUMBERS],
    }
}

// Whether two states are the same.
pub(crate) fn is_same(a: &StateCells, b: &StateCells) -> bool {
    a.refining == b.refining
        && a.fraction == b.fraction
        && a.count == b.count
        && are_same(&a.waiting, &b.waiting)
}
