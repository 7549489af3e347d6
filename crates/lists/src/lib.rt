// The list helpers: what is told of the circles in use of a store, and their order and contacts turned. Each function makes the entry tests of the store first.
#![tactic(auto)]

pub mod checked;
pub mod ends;
pub mod records;

ghost use Rattle.std.specs.Prelude.{◌≡◌, IfOk, map, reverse};
ghost use Rattle.errors.specs.Answer.{passed};
ghost use Rattle.inscribed.specs.Circles.{reversed_points};
ghost use Rattle.inscribed.specs.Lists.{turned};
ghost use Rattle.lists.specs.Asked.{store_entry, ends_asked, tmax_asked, spacing_asked, clip_asked, Changed};

use errors::Refusal;
use inscribed::FrontAndBack;
use inscribed::checked::{CirclesInUse, CirclesStore};
use line2::Line2;

// The entry tests of a store with a stated count. The circles in use are handed on where they passed.
#[tactic(auto, unfolding(crate::specs::Asked::store_entry))]
fn store_entry(store: &[f64], count: usize) -> Result<CirclesInUse<'_>, Refusal>
    ensures entry { passed result ≡ store_entry store.now count }
    ensures lent { IfOk result (λ c. (c.store.now ≡ store.now) × (c.count ≡ count)) }
{
    if inscribed::store::has_bad_circle(store, count) {
        Err(Refusal::BadNumber)
    } else if inscribed::store::is_bad_store_count(store, count) {
        Err(Refusal::NoRoom)
    } else {
        Ok(CirclesInUse { store, count })
    }
}

// The first and the last circle in use: 7 where there is none.
#[tactic(auto, unfolding(crate::specs::Asked::ends_asked))]
pub fn front_and_back(store: &[f64], count: usize) -> Result<FrontAndBack, Refusal>
    ensures { result ≡ ends_asked store.now count }
{
    store_entry(store, count)?.front_and_back()
}

// The place of the thickest circle in use, the last of equal ones; 0 where there is none.
#[tactic(auto, unfolding(crate::specs::Asked::tmax_asked))]
pub fn index_of_tmax(store: &[f64], count: usize) -> Result<usize, Refusal>
    ensures { result ≡ tmax_asked store.now count }
{
    Ok(store_entry(store, count)?.index_of_tmax())
}

// The mean distance of neighbouring centres: 7 for fewer than two circles.
#[tactic(auto, using(crate::proofs::Laws::store_passed), unfolding(crate::specs::Asked::spacing_asked))]
pub fn average_spacing(store: &[f64], count: usize) -> Result<f64, Refusal>
    ensures { result ≡ spacing_asked store.now count }
{
    store_entry(store, count)?.average_spacing()
}

// The line that clips the end of the circles in use: 7 for fewer than two circles.
#[tactic(auto, using(crate::proofs::ends::Laws::too_few), unfolding(crate::specs::Asked::clip_asked))]
pub fn end_clip_line(store: &[f64], count: usize) -> Result<Line2, Refusal>
    ensures { result ≡ clip_asked store.now count }
{
    let circles = store_entry(store, count)?;
    if count < 2 {
        return Err(Refusal::TooFewCircles);
    }
    ends::clip_line(checked::last_pair(&circles))
}

// Swaps the contacts of every circle in use.
#[tactic(auto, using(crate::proofs::Laws::store_passed))]
pub fn reverse_points(store: &mut [f64], count: usize) -> Result<(), Refusal>
    ensures { Changed (map reversed_points) store.old count store.new result }
{
    store_entry(store, count)?;
    CirclesStore::new(store, count).reverse_points();
    Ok(())
}

// Turns the order of the circles in use, and swaps the contacts of each.
#[tactic(auto, using(crate::proofs::Laws::store_passed))]
pub fn reverse_order(store: &mut [f64], count: usize) -> Result<(), Refusal>
    ensures { Changed turned store.old count store.new result }
{
    store_entry(store, count)?;
    CirclesStore::new(store, count).reverse_order();
    Ok(())
}

// Turns the order of the circles in use. Each keeps its contacts.
#[tactic(auto, using(crate::proofs::Laws::store_passed))]
pub fn reverse_order_only(store: &mut [f64], count: usize) -> Result<(), Refusal>
    ensures { Changed reverse store.old count store.new result }
{
    store_entry(store, count)?;
    CirclesStore::new(store, count).reverse_order_only();
    Ok(())
}
