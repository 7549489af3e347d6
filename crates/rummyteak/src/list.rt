// What is asked of the circles in a store, and their order and contacts turned.
ghost use Rattle.std.specs.Prelude.{◌≡◌, map, reverse};
ghost use Rattle.errors.specs.Answer.{number};
ghost use Rattle.inscribed.specs.Circles.{reversed_points};
ghost use Rattle.inscribed.specs.Store.{circles_of, stored};
ghost use Rattle.inscribed.specs.Lists.{turned};
ghost use Rattle.lists.specs.Asked.{store_entry, ends_asked, tmax_asked, spacing_asked, clip_asked, unless_refused};
ghost use Rattle.rummyteak.specs.Told.{told_as, told, line_numbers, end_cells, ends_left, part_cells, part_of};

use crate::telling;
use inscribed::store::WIDTH;

// The first and the last circle in use.
pub fn rummyteak_front_and_back(
    store: &[f64],
    count: usize,
    front: &mut [f64; WIDTH],
    back: &mut [f64; WIDTH],
) -> u32
    ensures { (record { number = result; left = end_cells front.new back.new }) ≡ told_as ends_left (end_cells front.old back.old) (ends_asked store.now count) }
{
    telling::tell_ends(lists::front_and_back(store, count), front, back)
}

// The place of the thickest circle in use.
pub fn rummyteak_index_of_tmax(store: &[f64], count: usize, place: &mut usize) -> u32
    ensures { (record { number = result; left = place.new }) ≡ told place.old (tmax_asked store.now count) }
{
    telling::tell(lists::index_of_tmax(store, count), place)
}

// The mean distance of neighbouring centres.
pub fn rummyteak_average_spacing(store: &[f64], count: usize, spacing: &mut f64) -> u32
    ensures { (record { number = result; left = spacing.new }) ≡ told spacing.old (spacing_asked store.now count) }
{
    telling::tell(lists::average_spacing(store, count), spacing)
}

// The line that clips the end of the circles in use.
pub fn rummyteak_end_clip_line(store: &[f64], count: usize, line: &mut [f64; 4]) -> u32
    ensures { (record { number = result; left = line.new }) ≡ told_as line_numbers line.old (clip_asked store.now count) }
{
    telling::tell_line(lists::end_clip_line(store, count), line)
}

// Swaps the contacts of every circle in use.
pub fn rummyteak_reverse_points(store: &mut [f64], count: usize) -> u32
    ensures value { result ≡ number (store_entry store.old count) }
    ensures store_after { store.new ≡ unless_refused (store_entry store.old count) (stored (map reversed_points (circles_of store.old count)) store.old) store.old }
{
    telling::number(lists::reverse_points(store, count))
}

// Turns the order of the circles in use, and swaps the contacts of each.
pub fn rummyteak_reverse_order(store: &mut [f64], count: usize) -> u32
    ensures value { result ≡ number (store_entry store.old count) }
    ensures store_after { store.new ≡ unless_refused (store_entry store.old count) (stored (turned (circles_of store.old count)) store.old) store.old }
{
    telling::number(lists::reverse_order(store, count))
}

// Turns the order of the circles in use.
pub fn rummyteak_reverse_order_only(store: &mut [f64], count: usize) -> u32
    ensures value { result ≡ number (store_entry store.old count) }
    ensures store_after { store.new ≡ unless_refused (store_entry store.old count) (stored (reverse (circles_of store.old count)) store.old) store.old }
{
    telling::number(lists::reverse_order_only(store, count))
}

// Where the circles in use from a place on start in the store, and how many numbers they have.
#[tactic(auto, unfolding(crate::specs::Told::told_as), using(inscribed::proofs::StoreLaws::part_bounds))]
pub fn rummyteak_circles_from(
    store: &[f64],
    count: usize,
    place: usize,
    first: &mut usize,
    numbers: &mut usize,
) -> u32
    ensures { (record { number = result; left = part_cells first.new numbers.new }) ≡ told (part_cells first.old numbers.old) (part_of store.now count place) }
{
    let entry = inscribed::store::circles_entry(store, count, place);
    if let Ok(()) = entry {
        *first = place * WIDTH;
        *numbers = (count - place) * WIDTH;
    }
    telling::number(entry)
}
