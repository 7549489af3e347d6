//! The laws of marches, of goings on and of extractions: each is the contract of a function without a parameter, whose body is empty. What it says is a record of `refine::specs::Law`, of `specs/EdgesLaw`, of `specs/PauseLaw` or of `specs/Again`, a field to a sentence.
ghost use Rattle.std.specs.Prelude.{◌≡◌, ℕ, List, length, Float, ◌*◌, ◌≤◌, Some};
ghost use Rattle.runs.specs.Run.{under_limit};
ghost use Rattle.inscribed.specs.Store.{width, most_slots, slots_within};
ghost use Rattle.queries.specs.declared.HitEdges.{HitEdges};
ghost use Rattle.refine.specs.Law.{EndingLaw, LimitLaw, SlotLaw};
ghost use Rattle.refine.specs.Machine.{most_waiting};
ghost use Rattle.refine.specs.Report.{count_of};
ghost use Rattle.camber.specs.March.{Marched, march_of, march_told, plain_march, marched_circles, march_state};
ghost use Rattle.camber.specs.EdgesLaw.{EdgesOf};
ghost use Rattle.camber.specs.Extraction.{extraction_of};
ghost use Rattle.camber.specs.Going.{Going, going_of, plain_going, going_accepted};
ghost use Rattle.camber.specs.PauseLaw.{told_by_march, left_by_march, left_by_going, PauseLaw, StateLaw};
ghost use Rattle.camber.specs.Again.{AgainLaw};
ghost use Rattle.camber.specs.declared.state.MarchState.{MarchState};

/// The limit law of marches, on every input, at every limit of units and every slot limit: that of `march` at 1,024 slots, and that of `march_cell` at 256.
/// A run under a limit is the plain run cut short: spent exactly where the plain run takes more units, its circles the first ones of those at every larger limit, and any other ending the same at every larger limit.
pub fn limit_law()
    ensures { (m : Marched) (limit : ℕ) → LimitLaw m.section m.tol m.store 0 (march_of m) (plain_march m) (λ l. marched_circles m (under_limit l)) limit }
{}

/// Two marches that differ in their slot limits alone, `few` no more than `more`: where the one with `more` leaves at most `few` circles, they are alike in all: ending, count, units and whole store.
/// Else the one with `few` ends in 15 with the first `few` circles of the other, the store behind them as it was. It takes no more units than the other. So it is within any limit of units, the same for both, and without one. The edges are the same, and where the marches are alike, so is the state.
pub fn slot_law()
    ensures limited { (m : Marched) (few more limit : ℕ) → few ≤ more
        → SlotLaw few 0 m.store (march_of (record m { slot_limit = few }) limit) (march_of (record m { slot_limit = more }) limit) }
    ensures plain { (m : Marched) (few more : ℕ) → few ≤ more
        → SlotLaw few 0 m.store (plain_march (record m { slot_limit = few })) (plain_march (record m { slot_limit = more })) }
    ensures edges { (m : Marched) (few more limit : ℕ)
        → (march_told (record m { slot_limit = few }) limit).edges ≡ (march_told (record m { slot_limit = more }) limit).edges }
    ensures states { (m : Marched) (few more limit : ℕ) → few ≤ more → count_of 0 (march_of (record m { slot_limit = more }) limit) ≤ few
        → march_state (record m { slot_limit = few }) limit ≡ march_state (record m { slot_limit = more }) limit }
{}

/// The edges that a march tells, at any limit and whichever way it ends, are edges of its section, and two different ones.
pub fn edges_law()
    ensures { (m : Marched) (limit : ℕ) (e : HitEdges) → (march_told m limit).edges ≡ Some e → EdgesOf m e }
{}

/// The law of a pause: a march that was spent at a first limit hands out a state, and going on from it with a second limit, by the same entry and with section, tolerances, store and count as the march left them, tells what the march at the sum of the limits tells:
/// the ending, the count, the whole store, and the state where that is spent too; its units and the first limit are the units of that march. With limit 0 an equal state comes back, and all is as it was. So it is after a going on that was spent again, by whomever its state was made, where that has its 64 slots, as every `MarchState` has.
/// The edges of the start come with the march, and are the same at every limit.
pub fn pause_law()
    ensures marches { (m : Marched) (first : ℕ) (p : MarchState) → march_state m first ≡ Some p → PauseLaw (told_by_march m) first p (left_by_march m first p) }
    ensures goings { (g : Going) (first : ℕ) (p : MarchState) → length g.state.waiting ≡ most_waiting * width
        → (going_of g first).state ≡ Some p → PauseLaw (going_of g) first p (left_by_going g first p) }
    ensures edges { (m : Marched) (limit more : ℕ) → (march_told m limit).edges ≡ (march_told m more).edges }
{}

/// A state comes with every 14 of a march or a going on, and with 14 alone; it is never refused with 27, with the count that came with it.
pub fn state_law()
    ensures marches { (m : Marched) (limit : ℕ) → StateLaw 0 (told_by_march m limit) }
    ensures goings { (g : Going) (limit : ℕ) → length g.state.waiting ≡ most_waiting * width → StateLaw g.count (going_of g limit) }
{}

/// The limit law of goings on, on every input, states made by hand among them, at every limit of units and every slot limit: that of `going::go_on` at 1,024 slots, and that of `going::go_on_cell` at 256.
pub fn limit_law_of_goings()
    ensures { (g : Going) (limit : ℕ) → LimitLaw g.section g.tol g.store g.count (λ l. (going_of g l).called) (plain_going g).called (λ l. going_accepted g (under_limit l)) limit }
{}

/// Two goings on that differ in their slot limits alone, `few` no more than `more`, with a stated count that fits both: as of two marches.
pub fn slot_law_of_goings()
    ensures limited { (g : Going) (few more limit : ℕ) → few ≤ more → g.count ≤ few
        → SlotLaw few g.count g.store (going_of (record g { slot_limit = few }) limit).called (going_of (record g { slot_limit = more }) limit).called }
    ensures plain { (g : Going) (few more : ℕ) → few ≤ more → g.count ≤ few
        → SlotLaw few g.count g.store (plain_going (record g { slot_limit = few })).called (plain_going (record g { slot_limit = more })).called }
    ensures states { (g : Going) (few more limit : ℕ) → few ≤ more → g.count ≤ few → count_of g.count (going_of (record g { slot_limit = more }) limit).called ≤ few
        → going_of (record g { slot_limit = few }) limit ≡ going_of (record g { slot_limit = more }) limit }
{}

/// Refining a finished list again changes nothing: the circles that one march left, by either entry and whichever way it ended, offered in order to an empty list with as many slots, are the same list, bit for bit, for one unit fewer than there are circles.
pub fn again_law()
    ensures { (m : Marched) (first : ℕ) (other : List Float) → m.slot_limit ≤ most_slots
        → slots_within m.slot_limit other ≡ slots_within m.slot_limit m.store → AgainLaw m first other }
{}

/// The ending law of extractions, on every input, at every limit of units over both halves and every slot limit: that of `extraction::extract_circles` at 1,024 slots.
/// An extraction ends, and where it isn't spent, every larger limit gives the same ending, count, units and whole store.
pub fn ending_law_of_extractions()
    ensures { (m : Marched) (limit : ℕ) → EndingLaw (extraction_of m) limit }
{}
