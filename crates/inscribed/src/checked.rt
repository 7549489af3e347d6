// The circles of a store: one read or written, what is told of those in use, and their order and contacts turned.
ghost use Rattle.std.specs.Prelude.{◌≡◌, ℕ, List, Float, slice_index_or, map, reverse, ◌+◌, ◌-◌, ◌*◌, ◌≤◌, ◌<◌, length};
ghost use Rattle.inscribed.specs.declared.Inscribed.{Inscribed as Circle};
ghost use Rattle.inscribed.specs.Circles.{reversed_points};
ghost use Rattle.inscribed.specs.Store.{slots as slots_of, slots_within, width, most_slots, circle_at, circles_of, stored};
ghost use Rattle.inscribed.specs.Code.{with_circle};
ghost use Rattle.inscribed.specs.Lists.{turned, front_and_back, tmax, spacing_after, average_spacing};

use crate::store::{MOST_SLOTS, WIDTH, slots_in};
use crate::{FrontAndBack, Inscribed};
use errors::Refusal;

// The circles in use of a store: the store's numbers, and how many circles they are.
#[derive(Clone, Copy)]
pub struct CirclesInUse<'a> {
    pub store: &'a [f64],
    pub count: usize,
    pub ghost in_store: { count * width ≤ length store.now },
    pub ghost few: { count ≤ most_slots },
}

// The circles in use of a store that is changed: the store's numbers, how many circles it has room for, and how many are in use.
#[derive(Drop)]
pub struct CirclesStore<'a> {
    pub store: &'a mut [f64],
    pub slots: usize,
    pub count: usize,
    pub ghost in_store: { (count ≤ slots) × (slots * width ≤ length store.now) },
    pub ghost few: { slots ≤ most_slots },
}

// The circle in slot k.
#[tactic(auto, unfolding(crate::specs::Store::circle_from))]
pub fn circle_at(store: &[f64], k: usize) -> Inscribed
    requires { (k + 1) * width ≤ length store.now }
    ensures { result ≡ circle_at store.now k }
{
    let i = k * WIDTH;
    Inscribed {
        cx: store[i],
        cy: store[i + 1],
        r: store[i + 2],
        p0x: store[i + 3],
        p0y: store[i + 4],
        p1x: store[i + 5],
        p1y: store[i + 6],
        l0: store[i + 7],
        l1: store[i + 8],
    }
}

// Writes a circle into slot k.
#[tactic(auto, unfolding(crate::specs::Code::with_circle))]
pub fn put_circle(store: &mut [f64], k: usize, c: Inscribed)
    requires { (k + 1) * width ≤ length store.old }
    ensures { store.new ≡ with_circle store.old k c }
{
    let i = k * WIDTH;
    store[i..i + WIDTH].copy_from_slice(&c.numbers());
}

// The place of the greatest of `count` radii, the last of equal ones; 0 where there is none.
pub fn index_of_greatest<F: Fn(usize) -> f64>(count: usize, radius: F) -> usize
    requires { (k : ℕ) → k < count → F.pre radius k }
    ensures { (cs : List Circle) (d : Circle) → length cs ≡ count → ((k : ℕ) (r : Float) → k < count → F.post radius k r → r ≡ (slice_index_or cs k d).r) → result ≡ tmax cs }
{
    let mut best = 0;
    // No radius is less than a NaN, so the first one wins.
    let mut most = f64::NAN;
    for k in 0..count {
        let r = radius(k);
        if !(r < most) {
            best = k;
            most = r;
        }
    }
    best
}

// The sum of distances after that of two neighbours.
#[tactic(auto, unfolding(crate::specs::Lists::spacing_after))]
fn spacing_after(sum: f64, a: Inscribed, b: Inscribed) -> Result<f64, Refusal>
    ensures { result ≡ spacing_after sum a b }
{
    let d = points::dist(b.center(), a.center())?;
    errors::watch(sum + d)
}

impl CirclesInUse<'_> {
    // The circle at a place.
    pub fn at(&self, k: usize) -> Inscribed
        requires { k < self.now.count }
        ensures { result ≡ circle_at self.now.store.now k }
    {
        circle_at(self.store, k)
    }

    // The first and the last circle: 7 where there is none.
    #[tactic(auto, using(crate::proofs::MeasureLaws::ends_are), unfolding(crate::specs::Lists::front_and_back, crate::specs::Store::circles_from))]
    pub fn front_and_back(&self) -> Result<FrontAndBack, Refusal>
        ensures { result ≡ front_and_back (circles_of self.now.store.now self.now.count) }
    {
        if self.count == 0 {
            return Err(Refusal::TooFewCircles);
        }
        Ok(FrontAndBack {
            front: self.at(0),
            back: self.at(self.count - 1),
        })
    }

    // The place of the thickest circle, the last of equal ones; 0 where there is none.
    pub fn index_of_tmax(&self) -> usize
        ensures { result ≡ tmax (circles_of self.now.store.now self.now.count) }
    {
        index_of_greatest(self.count, |k| self.at(k).r)
    }

    // The mean distance of neighbouring centres: 7 for fewer than two circles.
    #[tactic(auto, using(crate::proofs::MeasureLaws::too_few))]
    pub fn average_spacing(&self) -> Result<f64, Refusal>
        ensures { result ≡ average_spacing (circles_of self.now.store.now self.now.count) }
    {
        if self.count < 2 {
            return Err(Refusal::TooFewCircles);
        }
        let mut sum = 0.0;
        for k in 0..self.count - 1 {
            sum = spacing_after(sum, self.at(k), self.at(k + 1))?;
        }
        Ok(sum / (self.count - 1) as f64)
    }
}

impl<'a> CirclesStore<'a> {
    /// A store that has no more slots than `slot_limit`, of which `count` are in use.
    pub fn with_slot_limit(
        store: &'a mut [f64],
        slot_limit: usize,
        count: usize,
    ) -> CirclesStore<'a>
        requires held { (count * width ≤ length store.old) × (count ≤ slot_limit) }
        requires few { slot_limit ≤ most_slots }
        ensures same { result.store.ghost_name ≡ store.entry.ghost_name }
        ensures held { (result.store.now ≡ store.entry.now) × (result.slots ≡ slots_within slot_limit store.entry.now) × (result.count ≡ count) }
    {
        let slots = slots_in(store.len(), slot_limit);
        CirclesStore {
            store,
            slots,
            count,
        }
    }

    // A store of which `count` circles are in use.
    pub fn new(store: &'a mut [f64], count: usize) -> CirclesStore<'a>
        requires { (count * width ≤ length store.old) × (count ≤ most_slots) }
        ensures same { result.store.ghost_name ≡ store.entry.ghost_name }
        ensures held { (result.store.now ≡ store.entry.now) × (result.slots ≡ slots_of store.entry.now) × (result.count ≡ count) }
    {
        CirclesStore::with_slot_limit(store, MOST_SLOTS, count)
    }
}

impl CirclesStore<'_> {
    ghost use Rattle.inscribed.specs.Changes.{Becomes, in_use};

    // The circles in use.
    pub fn in_use(&self) -> CirclesInUse<'_>
        ensures { (result.store.now ≡ self.now.store.now) × (result.count ≡ self.now.count) }
    {
        CirclesInUse {
            store: self.store,
            count: self.count,
        }
    }

    // The last circle.
    pub fn last(&self) -> Inscribed
        requires { 0 < self.now.count }
        ensures { result ≡ circle_at self.now.store.now (self.now.count - 1) }
    {
        circle_at(self.store, self.count - 1)
    }

    // Adds a circle behind the last.
    pub fn push(&mut self, c: Inscribed)
        requires { self.old.count < self.old.slots }
        ensures { Becomes self.old self.new (with_circle self.old.store.now self.old.count c) (self.old.count + 1) }
    {
        put_circle(self.store, self.count, c);
        self.count += 1;
    }

    // Turns the order of the circles. Each keeps its contacts.
    pub fn reverse_order_only(&mut self)
        ensures { Becomes self.old self.new (stored (reverse (in_use self.old)) self.old.store.now) self.old.count }
    {
        let count = self.count;
        let store = &mut *self.store;
        for i in 0..count / 2 {
            let j = count - 1 - i;
            let a = circle_at(store, i);
            let b = circle_at(store, j);
            put_circle(store, i, b);
            put_circle(store, j, a);
        }
    }

    // Swaps the contacts of each circle.
    #[tactic(auto, using(crate::proofs::TurningLaws::swap_start, crate::proofs::TurningLaws::swap_step, crate::proofs::TurningLaws::swap_over))]
    pub fn reverse_points(&mut self)
        ensures { Becomes self.old self.new (stored (map reversed_points (in_use self.old)) self.old.store.now) self.old.count }
    {
        let count = self.count;
        let store = &mut *self.store;
        for k in 0..count {
            put_circle(store, k, circle_at(store, k).reverse_points());
        }
    }

    // Turns the order of the circles, and swaps the contacts of each.
    #[tactic(auto, using(crate::proofs::TurningLaws::turn_both))]
    pub fn reverse_order(&mut self)
        ensures { Becomes self.old self.new (stored (turned (in_use self.old)) self.old.store.now) self.old.count }
    {
        self.reverse_order_only();
        self.reverse_points();
    }
}
