// The sums done by hand that are proved of the definitions. Only the table and its one claim.
#![tactic(auto)]

pub mod laws;
