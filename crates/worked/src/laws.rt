//! The sums done by hand: the contract of a function without a parameter, whose body is empty. What it says is the table of `specs/Worked`, a row to a sum.
ghost use Rattle.worked.specs.Worked.{Holds, table};

/// Every row of the table holds: what the definitions give is what the sum says, bit for bit.
pub fn worked_sums()
    ensures { Holds table }
{}
