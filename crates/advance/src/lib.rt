// One advance from the last circle: the end of the march, or the next circle to offer.
#![tactic(auto)]

pub mod checked;
mod remaining;
mod steps;

use errors::Refusal;
use inscribed::Inscribed;

// An ending of the march by itself, spent with the number of the fraction that is due, or the next circle, each with the units taken so far. An enum of its own: as a `ControlFlow` of pairs it would be longer at each use.
#[derive(Clone, Copy)]
pub enum Advanced {
    Ended(Result<(), Refusal>, u32),
    Spent(usize, u32),
    Next(Inscribed, u32),
}
