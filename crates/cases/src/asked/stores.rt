// What is asked of the circles in a store, and of circle records.
use crate::asked::steps::circle_from;
use crate::asked::{Question, Told};
use crate::numbers::{numbers_from, put};
use inscribed::store::WIDTH;
use lists::records;
use rummyteak::list;

// The first and the last circle.
fn ask_ends(store: &[f64], count: usize, out: &mut [f64]) -> u32 {
    let mut front = numbers_from(out, 0);
    let mut back = numbers_from(out, WIDTH);
    let number = list::rummyteak_front_and_back(store, count, &mut front, &mut back);
    put(out, &front);
    if let Some((_, rest)) = out.split_at_mut_checked(WIDTH) {
        put(rest, &back);
    }
    number
}

// The line that clips the end of the circles.
fn ask_clip(store: &[f64], count: usize, out: &mut [f64]) -> u32 {
    let mut line = numbers_from(out, 0);
    let number = list::rummyteak_end_clip_line(store, count, &mut line);
    put(out, &line);
    number
}

// The mean distance of neighbouring centres.
fn ask_spacing(store: &[f64], count: usize, out: &mut [f64]) -> u32 {
    let [mut spacing]: [f64; 1] = numbers_from(out, 0);
    let number = list::rummyteak_average_spacing(store, count, &mut spacing);
    put(out, &[spacing]);
    number
}

// The circles from a place on: how many numbers they have, and the numbers.
fn ask_part(q: &Question<'_>, store: &[f64], out: &mut [f64], len: &mut usize) -> u32 {
    let mut first = 0;
    *len = 0;
    let number = list::rummyteak_circles_from(store, q.place, q.how as usize, &mut first, len);
    for (x, y) in out.iter_mut().zip(store.iter().skip(first)).take(*len) {
        *x = *y;
    }
    number
}

// The thickest of a store's first four circles, as records.
fn ask_record(store: &[f64], place: &mut usize) -> u32 {
    let circles = [
        circle_from(store, 0),
        circle_from(store, WIDTH),
        circle_from(store, 2 * WIDTH),
        circle_from(store, 3 * WIDTH),
    ];
    records::index_of_tmax_of(&circles).map_or_else(u32::from, |i| {
        *place = i;
        0
    })
}

pub(crate) fn ask_list(
    q: &Question<'_>,
    store: &mut [f64],
    out: &mut [f64],
    told: &mut Told,
) -> bool {
    let mut place = told[1] as usize;
    let number = match q.name {
        b"index_of_tmax" => list::rummyteak_index_of_tmax(store, q.place, &mut place),
        b"front_and_back" => ask_ends(store, q.place, out),
        b"end_clip_line" => ask_clip(store, q.place, out),
        b"average_spacing" => ask_spacing(store, q.place, out),
        b"reverse_points" => list::rummyteak_reverse_points(store, q.place),
        b"reverse_order" => list::rummyteak_reverse_order(store, q.place),
        b"reverse_order_only" => list::rummyteak_reverse_order_only(store, q.place),
        b"circles_from" => ask_part(q, store, out, &mut place),
        b"index_of_tmax_of" => ask_record(store, &mut place),
        _ => return false,
    };
    told[0] = u64::from(number);
    told[1] = place as u64;
    true
}
