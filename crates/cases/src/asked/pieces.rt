// Stretches cut out of a section. Of a split the first piece comes into the output and the second into the store.
use crate::asked::{Question, Told};
use rummyteak::stretch;

// Behind the number come the count, whether the piece is closed, and how many points were given.
fn ask_between(q: &Question<'_>, out: &mut [f64], told: &mut Told) {
    let [t, _, l0, l1, ..] = *q.args;
    let mut count = told[1] as usize;
    let mut closed = false;
    let mut given = told[3] as usize;
    let number = stretch::rummyteak_between_lengths(
        q.section,
        t,
        l0,
        l1,
        out,
        &mut count,
        &mut closed,
        &mut given,
    );
    told[0] = u64::from(number);
    told[1] = count as u64;
    told[2] = u64::from(closed);
    told[3] = given as u64;
}

// Both pieces of a section that is cut at one length or at two. Behind the number come both counts, how many points were given for each, and 1 where the first piece is closed
// plus 2 where the second is.
fn ask_split(q: &Question<'_>, first: &mut [f64], second: &mut [f64], told: &mut Told) -> bool {
    let [t, _, l0, l1, ..] = *q.args;
    let mut counts = [told[1] as usize, told[2] as usize];
    let mut closed = [false; 2];
    let mut given = [told[3] as usize, told[4] as usize];
    let number = match q.name {
        b"split_open_at_length" => stretch::rummyteak_split_open_at_length(
            q.section,
            t,
            l0,
            first,
            second,
            &mut counts,
            &mut closed,
            &mut given,
        ),
        b"split_closed_at_lengths" => stretch::rummyteak_split_closed_at_lengths(
            q.section,
            t,
            l0,
            l1,
            first,
            second,
            &mut counts,
            &mut closed,
            &mut given,
        ),
        _ => return false,
    };
    *told = [
        u64::from(number),
        counts[0] as u64,
        counts[1] as u64,
        given[0] as u64,
        given[1] as u64,
        u64::from(closed[0]) + 2 * u64::from(closed[1]),
    ];
    true
}

pub(crate) fn ask_piece(
    q: &Question<'_>,
    store: &mut [f64],
    out: &mut [f64],
    told: &mut Told,
) -> bool {
    match q.name {
        b"between_lengths" => {
            ask_between(q, out, told);
            true
        }
        _ => ask_split(q, out, store, told),
    }
}
