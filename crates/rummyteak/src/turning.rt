// Orientation of the circles in a store.
ghost use Rattle.std.specs.Prelude.{◌≡◌};
ghost use Rattle.orient.specs.Orientation.{fwd_asked, fwd_store, upper_asked, upper_store};
ghost use Rattle.rummyteak.specs.Told.{told};

use crate::telling;
use orient::{OrientFwdAft, OrientUpperLower};
use points::Vector2;

// Brings the circles in use into leading-to-trailing order, by greatest radius.
pub fn rummyteak_orient_tmax_fwd(store: &mut [f64], count: usize, turned: &mut bool) -> u32
    ensures turned_after { (record { number = result; left = turned.new }) ≡ told turned.old (fwd_asked OrientFwdAft.TmaxFwd store.old count) }
    ensures store_after { store.new ≡ fwd_store OrientFwdAft.TmaxFwd store.old count }
{
    let how = OrientFwdAft::TmaxFwd;
    telling::tell(how.apply(store, count), turned)
}

// The same by the direction of the airflow.
pub fn rummyteak_orient_airflow(
    x: f64,
    y: f64,
    store: &mut [f64],
    count: usize,
    turned: &mut bool,
) -> u32
    ensures turned_after { (record { number = result; left = turned.new }) ≡ told turned.old (fwd_asked (OrientFwdAft.Airflow (record { x = x; y = y })) store.old count) }
    ensures store_after { store.new ≡ fwd_store (OrientFwdAft.Airflow (record { x = x; y = y })) store.old count }
{
    let d = Vector2 { x, y };
    let how = OrientFwdAft::Airflow(d);
    telling::tell(how.apply(store, count), turned)
}

// The same by a direction that points forward.
pub fn rummyteak_orient_fwd(
    x: f64,
    y: f64,
    store: &mut [f64],
    count: usize,
    turned: &mut bool,
) -> u32
    ensures turned_after { (record { number = result; left = turned.new }) ≡ told turned.old (fwd_asked (OrientFwdAft.Fwd (record { x = x; y = y })) store.old count) }
    ensures store_after { store.new ≡ fwd_store (OrientFwdAft.Fwd (record { x = x; y = y })) store.old count }
{
    let d = Vector2 { x, y };
    let how = OrientFwdAft::Fwd(d);
    telling::tell(how.apply(store, count), turned)
}

// Brings the first contact of each circle in use to the lower side, by the side to which the camber bends.
pub fn rummyteak_orient_curvature(store: &mut [f64], count: usize, swapped: &mut bool) -> u32
    ensures swapped_after { (record { number = result; left = swapped.new }) ≡ told swapped.old (upper_asked OrientUpperLower.Curvature store.old count) }
    ensures store_after { store.new ≡ upper_store OrientUpperLower.Curvature store.old count }
{
    let how = OrientUpperLower::Curvature;
    telling::tell(how.apply(store, count), swapped)
}

// The same by a direction that points to the upper side.
pub fn rummyteak_orient_upper(
    x: f64,
    y: f64,
    store: &mut [f64],
    count: usize,
    swapped: &mut bool,
) -> u32
    ensures swapped_after { (record { number = result; left = swapped.new }) ≡ told swapped.old (upper_asked (OrientUpperLower.Upper (record { x = x; y = y })) store.old count) }
    ensures store_after { store.new ≡ upper_store (OrientUpperLower.Upper (record { x = x; y = y })) store.old count }
{
    let d = Vector2 { x, y };
    let how = OrientUpperLower::Upper(d);
    telling::tell(how.apply(store, count), swapped)
}

// The same by a direction that points to the lower side.
pub fn rummyteak_orient_lower(
    x: f64,
    y: f64,
    store: &mut [f64],
    count: usize,
    swapped: &mut bool,
) -> u32
    ensures swapped_after { (record { number = result; left = swapped.new }) ≡ told swapped.old (upper_asked (OrientUpperLower.Lower (record { x = x; y = y })) store.old count) }
    ensures store_after { store.new ≡ upper_store (OrientUpperLower.Lower (record { x = x; y = y })) store.old count }
{
    let d = Vector2 { x, y };
    let how = OrientUpperLower::Lower(d);
    telling::tell(how.apply(store, count), swapped)
}
