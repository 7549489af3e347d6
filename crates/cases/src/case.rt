// What the lines of a table set, what the functions asked left, and what they told.
use crate::asked::{Question, Told};
use crate::numbers::{are_same, write};
use crate::table::{count, is_blank, number, whole, word};
use crate::{asked, state};
use inscribed::store::WIDTH;
use rummyteak::given::StateCells;

// How many arguments there are: two tolerances, and two circles at most.
pub(crate) const ARGUMENTS: usize = 2 + 2 * WIDTH;

// How many numbers a section has at most: one point more than it may.
pub(crate) const SECTION: usize = 8194;

// How many numbers the output has.
const ROOM: usize = 8200;

// How many circles the store has.
pub(crate) const SLOTS: usize = 1100;

// An output, a store, and the state of a march.
#[derive(Clone, Copy)]
pub(crate) struct Left {
    pub(crate) out: [f64; ROOM],
    pub(crate) store: [f64; SLOTS * WIDTH],
    pub(crate) state: StateCells,
}

impl Left {
    // Whether output and store are the same.
    pub(crate) fn has_same_numbers(&self, other: &Left) -> bool {
        are_same(&self.out, &other.out) && are_same(&self.store, &other.store)
    }

    // Whether the state is the same.
    pub(crate) fn has_same_state(&self, other: &Left) -> bool {
        state::is_same(&self.state, &other.state)
    }

    pub(crate) fn is_same(&self, other: &Left) -> bool {
        self.has_same_numbers(other) && self.has_same_state(other)
    }
}

// The arguments; the section, the output and the store, each with the length that is handed in, and the state; the list that is offered, with its length and how many of its circles are offered; the marks that fill output and store; output, store and state as they
// were kept; and what was told. The lengths stand beside arrays, since no memory is taken from the heap, and a line compares output and store behind them too.
#[derive(Clone, Copy)]
pub(crate) struct Case {
    pub(crate) args: [f64; ARGUMENTS],
    pub(crate) section: [f64; SECTION],
    pub(crate) section_len: usize,
    pub(crate) left: Left,
    pub(crate) out_len: usize,
    pub(crate) store_len: usize,
    pub(crate) out_mark: f64,
    pub(crate) store_mark: f64,
    pub(crate) list: [f64; SLOTS * WIDTH],
    pub(crate) list_len: usize,
    pub(crate) offered: usize,
    pub(crate) kept: Left,
    pub(crate) told: Told,
}

// No limit.
pub(crate) const NO_LIMIT: u32 = u32::MAX;

// The limit in word k of a line, none where there is no such word.
pub(crate) fn limit_of(line: &[u8], k: usize) -> u32 {
    match word(line, k) {
        [] => NO_LIMIT,
        limit => u32::try_from(whole(limit)).unwrap_or(NO_LIMIT),
    }
}

// Fills numbers with the mark in word 2 of a line, and writes those behind it at their start. Returns the mark.
fn fill(numbers: &mut [f64], line: &[u8]) -> f64 {
    let mark = number(word(line, 2));
    numbers.fill(mark);
    write(numbers, line, 3);
    mark
}

// Puts a number in a place, and returns the one that stood there; NaN where there is no such place.
fn replaced(numbers: &mut [f64], place: usize, x: f64) -> f64 {
    match numbers.get_mut(place) {
        Some(y) => std::mem::replace(y, x),
        None => f64::NAN,
    }
}

impl Case {
    pub(crate) fn new() -> Case {
        let left = Left {
            out: [0.0; ROOM],
            store: [0.0; SLOTS * WIDTH],
            state: state::marked(),
        };
        Case {
            args: [0.0; ARGUMENTS],
            section: [0.0; SECTION],
            section_len: 0,
            left,
            out_len: 0,
            store_len: 0,
            out_mark: 0.0,
            store_mark: 0.0,
            list: [0.0; SLOTS * WIDTH],
            list_len: 0,
            offered: 0,
            kept: left,
            told: [0; 6],
        }
    }

    // The store: its length in word 1 of a line, its mark, and its numbers.
    pub(crate) fn set_store(&mut self, line: &[u8]) {
        self.store_len = count(line, 1);
        self.store_mark = fill(&mut self.left.store, line);
    }

    // The output: its length in word 1 of a line, and its mark.
    pub(crate) fn set_output(&mut self, line: &[u8]) {
        self.out_len = count(line, 1);
        self.out_mark = fill(&mut self.left.out, line);
    }

    // The store becomes the list that is offered, of which so many circles are offered as word 1 of a line says.
    pub(crate) fn set_list(&mut self, line: &[u8]) {
        let numbers = self.left.store;
        self.list = numbers;
        self.list_len = self.store_len;
        self.offered = count(line, 1);
    }

    // Puts a number in a place of what is handed in, and returns the one that stood there: arguments from 0 on, the section from 100 on, the output from 8300 on, the store from 16500 on, the list from 30000 on, the state from 40000 on.
    pub(crate) fn replace(&mut self, place: usize, x: f64) -> f64 {
        match place {
            0..=99 => replaced(&mut self.args, place, x),
            100..=8299 => replaced(&mut self.section, place - 100, x),
            8300..=16499 => replaced(&mut self.left.out, place - 8300, x),
            16500..=29999 => replaced(&mut self.left.store, place - 16500, x),
            30000..=39999 => replaced(&mut self.list, place - 30000, x),
            _ => replaced(&mut self.left.state.waiting, place - 40000, x),
        }
    }

    // Asks the function that word k of the line names, with the place and the yes or no behind it. Says whether there is such a function, and the state stays as it was where it isn't spent.
    pub(crate) fn ask(&mut self, line: &[u8], k: usize, limit: u32) -> bool {
        let mut words = line.split(is_blank).skip(k);
        let name = words.next().unwrap_or(b"");
        let place = words.next().map_or(0, whole) as usize;
        let how = words.next().map_or(0, whole);
        let before = self.left.state;
        self.ask_by_name(name, place, how, limit)
            && (self.told[0] == 14 || state::is_same(&self.left.state, &before))
    }

    // Asks the function of a name, with a place and a yes or no. Nothing is told before. Says whether there is such a function.
    pub(crate) fn ask_by_name(&mut self, name: &[u8], place: usize, how: u64, limit: u32) -> bool {
        self.told = [0; 6];
        let section = &self.section[..self.section_len.min(SECTION)];
        let offered = &self.list[..self.list_len.min(SLOTS * WIDTH)];
        let question = Question {
            name,
            section,
            args: &self.args,
            offered,
            offered_count: self.offered,
            place,
            how,
            limit,
        };
        let store = &mut self.left.store[..];
        let out = &mut self.left.out[..];
        asked::ask(
            &question,
            &mut store[..self.store_len.min(SLOTS * WIDTH)],
            &mut out[..self.out_len.min(ROOM)],
            &mut self.left.state,
            &mut self.told,
        )
    }
}
