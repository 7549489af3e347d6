// The march along the camber line, and the extraction by two of them.
#![tactic(auto)]

pub mod extraction;
pub mod going;
mod halves;
pub mod laws;
pub mod march;
pub mod state;
