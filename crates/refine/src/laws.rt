//! The laws of refinements, of lists that are offered, and of thinnings: each is the contract of a function without a parameter, whose body is empty. What it says is a record of `specs/Law` or `specs/ThinLaw`, a field to a sentence.
ghost use Rattle.std.specs.Prelude.{◌≡◌, false, ℕ, ◌≤◌, Ok};
ghost use Rattle.runs.specs.Run.{under_limit};
ghost use Rattle.inscribed.specs.Store.{bad_circle};
ghost use Rattle.inscribed.specs.declared.Inscribed.{Inscribed};
ghost use Rattle.refine.specs.Law.{LimitLaw, OfferedLast, SlotLaw};
ghost use Rattle.refine.specs.Refinement.{Offer, refine_of, plain_refinement, accepted};
ghost use Rattle.refine.specs.Report.{count_of};
ghost use Rattle.refine.specs.Thinning.{Unthinned, thin_entry, thin_of, plain_thinning};
ghost use Rattle.refine.specs.ThinLaw.{ThinLaw, ThinLimitLaw, offer_after, LaterRefinementLaw};
ghost use Rattle.refine.specs.Offers.{Offers, refine_all_of, plain_refine_all, all_accepted};

/// The limit law of refinements, on every input, at every limit of units and every slot limit: that of `refine_and_push` at 1,024 slots, and that of `refine_and_push_cell` at 256.
/// A run under a limit is the plain run cut short: spent exactly where the plain run takes more units, its circles the first ones of those at every larger limit, and any other ending the same at every larger limit.
pub fn limit_law()
    ensures { (o : Offer) (limit : ℕ) → LimitLaw o.section o.tol o.store o.count (refine_of o) (plain_refinement o) (λ l. accepted o (under_limit l)) limit }
{}

/// After a finished refinement the offered circle is last.
pub fn offered_last()
    ensures { (o : Offer) (limit : ℕ) → OfferedLast o.circle (refine_of o) (λ l. accepted o (under_limit l)) limit }
{}

/// Two refinements that differ in their slot limits alone, `few` no more than `more`, with a stated count that fits both: where the one with `more` leaves at most `few` circles, they are alike in all: ending, count, units and whole store.
/// Else the one with `few` ends in 15 with the first `few` circles of the other, the store behind them as it was. It takes no more units than the other. So it is within any limit of units, the same for both, and without one.
pub fn slot_law()
    ensures limited { (o : Offer) (few more limit : ℕ) → few ≤ more → o.count ≤ few
        → SlotLaw few o.count o.store (refine_of (record o { slot_limit = few }) limit) (refine_of (record o { slot_limit = more }) limit) }
    ensures plain { (o : Offer) (few more : ℕ) → few ≤ more → o.count ≤ few
        → SlotLaw few o.count o.store (plain_refinement (record o { slot_limit = few })) (plain_refinement (record o { slot_limit = more })) }
{}

/// What a thinning leaves, on every input, at every limit of units and without one.
pub fn thin_law()
    ensures limited { (t : Unthinned) (limit : ℕ) → ThinLaw t.section t.tol t.store t.count (thin_of t limit) }
    ensures plain { (t : Unthinned) → ThinLaw t.section t.tol t.store t.count (plain_thinning t) }
{}

/// The limit law of thinnings, on every input, at every limit of units.
pub fn thin_limit_law()
    ensures { (t : Unthinned) (limit : ℕ) → ThinLimitLaw (thin_of t) (plain_thinning t) limit }
{}

/// A later refinement of what a thinning left, by an entry whose slot limit holds the circles left: any circle that passes test 2 can be
/// offered, and what is accepted goes into the freed slots, the first one first.
pub fn later_refinement_law()
    ensures { (t : Unthinned) (limit slot_limit later : ℕ) (circle : Inscribed) → thin_entry t ≡ Ok tt → bad_circle circle ≡ false
        → count_of t.count (thin_of t limit) ≤ slot_limit → LaterRefinementLaw (offer_after t (thin_of t limit) slot_limit circle) later }
{}

/// The limit law of lists that are offered, on every input, at every limit of units over all and every slot limit: that of `offers::refine_all` and of `offers::refine_all_cell`.
pub fn limit_law_of_lists()
    ensures { (o : Offers) (limit : ℕ) → LimitLaw o.section o.tol o.store o.count (refine_all_of o) (plain_refine_all o) (λ l. all_accepted o (under_limit l)) limit }
{}
