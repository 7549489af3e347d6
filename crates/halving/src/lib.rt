// The circle of a crossing, by halving, and the circle on a line.
#![tactic(auto)]

mod bisection;
pub mod checked;
