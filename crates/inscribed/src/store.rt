// The store of circles: the caller's numbers, `WIDTH` to a circle, packed from the start. A circle's numbers are read by `circle_at` and written by `put_circle` alone.
ghost use Rattle.std.specs.Prelude.{◌≡◌, IfOk, min, ◌/◌};
ghost use Rattle.errors.specs.Answer.{passed};
ghost use Rattle.inscribed.specs.Store.{width, finite_points, bad_length, bad_circle, bad_store, bad_store_within, bad_store_count, bad_count_within, circles_entry, numbers_from};

use crate::{Inscribed, checked};
use errors::{Finite, Refusal};

// How many numbers a circle has in a store.
pub const WIDTH: usize = 9;

// How many circles a store holds at most.
pub const MOST_SLOTS: usize = 1024;

/// How many circles a store holds at most by the entries for the cell.
pub const CELL_SLOTS: usize = 256;

// How many circles a store of `len` numbers holds that has no more slots than `slot_limit`.
pub fn slots_in(len: usize, slot_limit: usize) -> usize
    ensures { result ≡ min (len / width) slot_limit }
{
    (len / WIDTH).min(slot_limit)
}

// Whether the centre and both contacts are finite.
fn has_finite_points(c: Inscribed) -> bool
    ensures { result ≡ finite_points c }
{
    c.center().all_finite() && c.contact0().all_finite() && c.contact1().all_finite()
}

// A radius or a length along that isn't finite, or is below zero.
pub fn is_bad_length(x: f64) -> bool
    ensures { result ≡ bad_length x }
{
    !x.all_finite() || x < 0.0
}

// A number that isn't finite, or a radius or a length along below zero.
#[tactic(auto, unfolding(crate::specs::Store::bad_circle))]
pub fn is_bad_circle(c: Inscribed) -> bool
    ensures { result ≡ bad_circle c }
{
    !has_finite_points(c) || is_bad_length(c.r) || is_bad_length(c.l0) || is_bad_length(c.l1)
}

/// Test 2 of a store that has no more slots than `slot_limit`: a bad circle in use, as far as the store holds them.
pub fn has_bad_within(store: &[f64], slot_limit: usize, count: usize) -> bool
    ensures { result ≡ bad_store_within slot_limit store.now count }
{
    let held = count.min(slots_in(store.len(), slot_limit));
    (0..held).any(|k| is_bad_circle(checked::circle_at(store, k)))
}

// Test 2 of a store.
pub fn has_bad_circle(store: &[f64], count: usize) -> bool
    ensures { result ≡ bad_store store.now count }
{
    has_bad_within(store, MOST_SLOTS, count)
}

/// Test 4 of a store that has no more slots than `slot_limit`: a count above what it holds.
pub fn is_bad_count_within(store: &[f64], slot_limit: usize, count: usize) -> bool
    ensures { result ≡ bad_count_within slot_limit store.now count }
{
    slots_in(store.len(), slot_limit) < count
}

// Test 4 of a store.
pub fn is_bad_store_count(store: &[f64], count: usize) -> bool
    ensures { result ≡ bad_store_count store.now count }
{
    is_bad_count_within(store, MOST_SLOTS, count)
}

// Whether the circles from a place on can be handed out.
#[tactic(auto, unfolding(crate::specs::Store::circles_entry))]
pub fn circles_entry(store: &[f64], count: usize, place: usize) -> Result<(), Refusal>
    ensures { result ≡ circles_entry store.now count place }
{
    if has_bad_circle(store, count) {
        Err(Refusal::BadNumber)
    } else if is_bad_store_count(store, count) || count < place {
        Err(Refusal::NoRoom)
    } else {
        Ok(())
    }
}

// The numbers of the circles in use from a place on, as a part of the store, or why they are not handed out: 2 or 4. There are none from the place behind the last.
#[tactic(auto, using(crate::proofs::StoreLaws::part_bounds, crate::proofs::StoreLaws::part_passed))]
pub fn circles_from(store: &[f64], count: usize, place: usize) -> Result<&[f64], Refusal>
    ensures entry { passed result ≡ circles_entry store.now count place }
    ensures numbers { IfOk result (λ part. part.now ≡ numbers_from store.now count place) }
{
    circles_entry(store, count, place)?;
    Ok(&store[place * WIDTH..count * WIDTH])
}
