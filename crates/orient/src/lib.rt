// Orientation of the circles in a store: which end is the leading edge, and which contacts are on the upper side.
#![tactic(auto)]

mod camber;
mod checks;
mod curvature;
pub mod laws;
mod tmax;
mod voting;

ghost use Rattle.std.specs.Prelude.{◌≡◌, IfOk, map, reverse, ◌≤◌};
ghost use Rattle.errors.specs.Answer.{passed};
ghost use Rattle.inscribed.specs.Circles.{reversed_points};
ghost use Rattle.inscribed.specs.Store.{circles_of};
ghost use Rattle.orient.specs.Orientation.{orient_entry, bad_fwd, turn_of, fwd_asked, bad_upper, swap_of, upper_asked, Oriented};

use camber::{MOST_NUMBERS, camber_curve};
use errors::{Finite, Refusal};
use geometry::centers::has_bad_center;
use inscribed::checked::{CirclesInUse, CirclesStore};
use inscribed::store;
use points::Vector2;

// How the leading edge is told: by greatest radius, by the direction of the airflow, or by a direction that points forward.
#[derive(Clone, Copy)]
pub enum OrientFwdAft {
    TmaxFwd,
    Airflow(Vector2),
    Fwd(Vector2),
}

// How the upper side is told: by the side to which the camber bends, or by a direction that points to the upper side, or to the lower.
#[derive(Clone, Copy)]
pub enum OrientUpperLower {
    Curvature,
    Upper(Vector2),
    Lower(Vector2),
}

// The entry tests, with what fails by 2 beside the store. The circles in use are handed on where they passed.
#[tactic(auto, unfolding(crate::specs::Orientation::orient_entry))]
fn entered(store: &[f64], count: usize, bad: bool) -> Result<CirclesInUse<'_>, Refusal>
    ensures entry { passed result ≡ orient_entry store.now count bad }
    ensures lent { IfOk result (λ c. (c.store.now ≡ store.now) × (c.count ≡ count)) }
{
    if store::has_bad_circle(store, count) || bad {
        Err(Refusal::BadNumber)
    } else if store::is_bad_store_count(store, count) {
        Err(Refusal::NoRoom)
    } else if count < 2 {
        Err(Refusal::TooFewCircles)
    } else {
        Ok(CirclesInUse { store, count })
    }
}

// What fails by 2 beside the circles' numbers: a vector, or by greatest radius a centre out of a camber curve's range.
fn is_bad_fwd(how: OrientFwdAft, store: &[f64], count: usize) -> bool
    ensures { result ≡ bad_fwd how store.now count }
{
    match how {
        OrientFwdAft::TmaxFwd => has_bad_center(store, count),
        OrientFwdAft::Airflow(v) | OrientFwdAft::Fwd(v) => !v.all_finite(),
    }
}

// Whether the order of the circles has to be turned.
#[tactic(auto, unfolding(crate::specs::Orientation::tmax_fwd, crate::specs::Orientation::tmax_on))]
fn turn_of(how: OrientFwdAft, circles: &CirclesInUse<'_>) -> Result<bool, Refusal>
    requires { 1 ≤ circles.now.count }
    ensures { result ≡ turn_of how (circles_of circles.now.store.now circles.now.count) }
{
    match how {
        OrientFwdAft::TmaxFwd => {
            let mut numbers = [0.0; MOST_NUMBERS];
            tmax::check_tmax(&camber_curve(circles, &mut numbers)?, circles)
        }
        OrientFwdAft::Airflow(v) => checks::check_dir_fwd(circles, -v),
        OrientFwdAft::Fwd(v) => checks::check_dir_fwd(circles, v),
    }
}

// The same after the entry tests.
#[tactic(auto, using(crate::proofs::EntryLaws::orient_passed), unfolding(crate::specs::Orientation::fwd_asked))]
fn check_fwd(how: OrientFwdAft, store: &[f64], count: usize) -> Result<bool, Refusal>
    ensures { result ≡ fwd_asked how store.now count }
{
    let circles = entered(store, count, is_bad_fwd(how, store, count))?;
    turn_of(how, &circles)
}

// What fails by 2 beside the circles' numbers: a vector, or by curvature a centre out of a camber curve's range.
fn is_bad_upper(how: OrientUpperLower, store: &[f64], count: usize) -> bool
    ensures { result ≡ bad_upper how store.now count }
{
    match how {
        OrientUpperLower::Curvature => has_bad_center(store, count),
        OrientUpperLower::Upper(v) | OrientUpperLower::Lower(v) => !v.all_finite(),
    }
}

// Whether the contacts of the circles have to be swapped.
#[tactic(auto, unfolding(crate::specs::Orientation::curvature_upper))]
fn swap_of(how: OrientUpperLower, circles: &CirclesInUse<'_>) -> Result<bool, Refusal>
    requires { 1 ≤ circles.now.count }
    ensures { result ≡ swap_of how (circles_of circles.now.store.now circles.now.count) }
{
    match how {
        OrientUpperLower::Curvature => {
            let mut numbers = [0.0; MOST_NUMBERS];
            curvature::check_curvature(&camber_curve(circles, &mut numbers)?, circles)
        }
        OrientUpperLower::Upper(v) => checks::check_dir_upper(circles, v),
        OrientUpperLower::Lower(v) => checks::check_dir_upper(circles, -v),
    }
}

// The same after the entry tests.
#[tactic(auto, using(crate::proofs::EntryLaws::orient_passed), unfolding(crate::specs::Orientation::upper_asked))]
fn check_upper(how: OrientUpperLower, store: &[f64], count: usize) -> Result<bool, Refusal>
    ensures { result ≡ upper_asked how store.now count }
{
    let circles = entered(store, count, is_bad_upper(how, store, count))?;
    swap_of(how, &circles)
}

// Each of the two enums has a check and an `apply` of its own: their bodies are of two to five lines, and a trait for both, with its laws, would be longer.
impl OrientFwdAft {
    // Brings the circles in use into leading-to-trailing order; says whether the order was turned. Contacts stay.
    pub fn apply(self, store: &mut [f64], count: usize) -> Result<bool, Refusal>
        ensures { Oriented reverse (fwd_asked self store.old count) store.old count store.new result }
    {
        let turn = check_fwd(self, store, count)?;
        if turn {
            CirclesStore::new(store, count).reverse_order_only();
        }
        Ok(turn)
    }
}

impl OrientUpperLower {
    // Brings the first contact of each circle in use to the lower side; says whether the contacts were swapped. The order stays.
    pub fn apply(self, store: &mut [f64], count: usize) -> Result<bool, Refusal>
        ensures { Oriented (map reversed_points) (upper_asked self store.old count) store.old count store.new result }
    {
        let swap = check_upper(self, store, count)?;
        if swap {
            CirclesStore::new(store, count).reverse_points();
        }
        Ok(swap)
    }
}
