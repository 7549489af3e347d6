//! The law of edge fits: the contract of a function without a parameter, whose body is empty. What it says is a record of `refine::specs::Law`, a field to a sentence.
ghost use Rattle.std.specs.Prelude.{ℕ};
ghost use Rattle.refine.specs.Law.{EndingLaw};
ghost use Rattle.edges.specs.Edges.{EdgeInput, fit_of};

/// The ending law of fits of the open edge, on every input and at every limit of units: that of `fit_open_edge`.
/// A fit ends, and where it isn't spent, every larger limit gives the same ending with its point, and the same count, units and whole store.
pub fn ending_law()
    ensures { (i : EdgeInput) (limit : ℕ) → EndingLaw (fit_of i) limit }
{}
