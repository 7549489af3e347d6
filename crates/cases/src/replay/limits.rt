// A run under every limit, beside the same run without one. Before it, output, store and state are kept.
use crate::asked::Told;
use crate::case::{Case, Left, NO_LIMIT, limit_of};
use crate::numbers::are_same;
use crate::table::{whole, word};
use inscribed::store::WIDTH;

// What a run left and told, and what it began with.
#[derive(Clone, Copy)]
pub(crate) struct Ran {
    pub(crate) left: Left,
    pub(crate) told: Told,
}

// What a spent run leaves: the first circles of the plain run's, what nobody compares (an edge fit), or the store as it was, with its count (a thinning).
#[derive(Clone, Copy)]
pub(crate) enum Spent {
    FirstCircles,
    Anything,
    AsBefore(usize),
}

// Runs what word k of the line names, from output, store and state as they were kept.
pub(crate) fn run(line: &[u8], k: usize, limit: u32, case: &mut Case) -> Ran {
    case.left = case.kept;
    case.ask(line, k, limit);
    Ran {
        left: case.left,
        told: case.told,
    }
}

// Keeps output, store and state, and runs what word k of the line names without a limit. Nothing where no function has that name, or where a state was written.
pub(crate) fn plain_run(line: &[u8], k: usize, case: &mut Case) -> Option<Ran> {
    case.kept = case.left;
    if !case.ask(line, k, NO_LIMIT) {
        return None;
    }
    Some(Ran {
        left: case.left,
        told: case.told,
    })
}

impl Ran {
    // Whether another run ended with the same count and units.
    fn ends_alike(&self, other: &Ran) -> bool {
        self.told[..3] == other.told[..3]
    }

    // Whether another run ended with the same count and units, and left the same.
    fn is_same(&self, other: &Ran) -> bool {
        self.ends_alike(other) && self.left.is_same(&other.left)
    }

    // Whether another run began on the same edges.
    fn has_same_edges(&self, other: &Ran) -> bool {
        self.told[3..] == other.told[3..]
    }

    // Whether the run was spent.
    pub(crate) fn is_spent(&self) -> bool {
        self.told[0] == 14
    }

    // Whether the run was spent at a limit.
    fn is_spent_at(&self, limit: u32) -> bool {
        self.is_spent() && self.told[2] == u64::from(limit)
    }

    // Whether the store holds the first circles of the plain run's, as many as were told, and behind them what it held before.
    fn is_start(&self, plain: &Ran, kept: &Left) -> bool {
        let used = (self.told[1] as usize).min(self.left.store.len() / WIDTH) * WIDTH;
        are_same(&self.left.store[..used], &plain.left.store[..used])
            && are_same(&self.left.store[used..], &kept.store[used..])
    }

    // Whether a spent run left what such a run leaves.
    fn leaves(&self, spent: Spent, plain: &Ran, kept: &Left) -> bool {
        match spent {
            Spent::FirstCircles => self.is_start(plain, kept),
            Spent::Anything => true,
            Spent::AsBefore(count) => self.told[1] == count as u64 && self.left.is_same(kept),
        }
    }

    // Whether a run under a limit keeps to the plain one: the same from its units on, spent below them, with the same edges.
    pub(crate) fn keeps(&self, plain: &Ran, spent: Spent, limit: u32, kept: &Left) -> bool {
        self.has_same_edges(plain)
            && if plain.told[2] <= u64::from(limit) {
                self.is_same(plain)
            } else {
                self.is_spent_at(limit) && self.leaves(spent, plain, kept)
            }
    }

    // Whether a run whose store has so many slots keeps to the same run with more of them: alike in all where that one leaves no more circles. Else it ends in 15 with as
    // many circles, the first ones of that one's, within that one's units.
    fn fills(&self, larger: &Ran, slots: u64, kept: &Left) -> bool {
        self.has_same_edges(larger)
            && if larger.told[1] <= slots {
                self.is_same(larger)
            } else {
                self.told[..2] == [15, slots]
                    && self.told[2] <= larger.told[2]
                    && self.is_start(larger, kept)
                    && are_same(&self.left.out, &kept.out)
                    && self.left.has_same_state(kept)
            }
    }
}

// Whether the run that word 2 of the line names keeps to the plain one at each limit from word 1 up to two above its units.
pub(crate) fn keep(line: &[u8], spent: Spent, case: &mut Case) -> bool {
    let Some(plain) = plain_run(line, 2, case) else {
        return false;
    };
    let end = (plain.told[2] % 1000) as u32 + 3;
    for limit in limit_of(line, 1)..end {
        let ran = run(line, 2, limit, case);
        if !ran.keeps(&plain, spent, limit, &case.kept) {
            return false;
        }
    }
    true
}

// Whether the runs that words 2 and 3 of the line name leave the same at each limit below word 1.
pub(crate) fn agree(line: &[u8], case: &mut Case) -> bool {
    case.kept = case.left;
    for limit in 0..limit_of(line, 1) {
        let a = run(line, 2, limit, case);
        let b = run(line, 3, limit, case);
        if !(b.ends_alike(&a) && b.left.has_same_numbers(&a.left)) {
            return false;
        }
    }
    true
}

// Whether the run that word 2 of the line names, whose store has as many slots as word 1 says, keeps to the one that word 4 names at each limit from 0 up to two above the units of
// the latter.
pub(crate) fn fill(line: &[u8], case: &mut Case) -> bool {
    let Some(plain) = plain_run(line, 4, case) else {
        return false;
    };
    let end = (plain.told[2] % 1000) as u32 + 3;
    for limit in 0..end {
        let larger = run(line, 4, limit, case);
        if !run(line, 2, limit, case).fills(&larger, whole(word(line, 1)), &case.kept) {
            return false;
        }
    }
    true
}
