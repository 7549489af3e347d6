// Answers that are known by a checksum, and roots by their bits.
use crate::asked::{Question, Told};
use crate::case::NO_LIMIT;
use crate::table::{count, number, whole, word};
use crate::{asked, bits, samples, state};
use inscribed::store::WIDTH;

// The questions of a sample: the first, and where there is one the second, of the circles that the first left.
fn ask_both(line: &[u8], first: Question<'_>, store: &mut [f64], out: &mut [f64], told: &mut Told) {
    let mut marked = state::marked();
    asked::ask(&first, store, out, &mut marked, told);
    let name = word(line, 4);
    if told[0] == 0 && !name.is_empty() {
        let second = Question {
            name,
            place: told[1] as usize,
            how: whole(word(line, 5)),
            ..first
        };
        asked::ask(&second, store, out, &mut marked, told);
    }
}

// Clears the lengths along of a circle that was put out: the published functions have none.
fn clear_lengths(name: &[u8], out: &mut [f64; 130]) {
    match name {
        b"inscribed_from_crossing" | b"try_inscribed" | b"inscribed_refined" => {
            out[samples::PUBLISHED..WIDTH].fill(0.0);
        }
        _ => {}
    }
}

// Whether the input from the seed in word 1 has the answer whose checksum is word 2. An odd seed's profile goes without its first and its last point.
pub(crate) fn sample(line: &[u8]) -> bool {
    let seed = whole(word(line, 1));
    let profile = samples::inputs::section(seed);
    let from = (seed % 2 * 2) as usize;
    let first = Question {
        name: word(line, 3),
        section: &profile[from..42 - from],
        args: &samples::inputs::args(seed),
        offered: &[],
        offered_count: 0,
        place: 0,
        how: 0,
        limit: NO_LIMIT,
    };
    let mut store = [0.0; 64 * WIDTH];
    let mut out = [0.0; 130];
    let mut told = [0; 6];
    ask_both(line, first, &mut store, &mut out, &mut told);
    clear_lengths(first.name, &mut out);
    samples::checksum_of(&told, &out, &store) == whole(word(line, 2))
}

// Whether the root of the number in word 1 is that in word 2.
pub(crate) fn root(line: &[u8]) -> bool {
    samples::root_bits(number(word(line, 1))) == bits::pattern(number(word(line, 2)))
}

// Whether the roots of as many generated patterns as word 1 says have the checksum in word 2.
pub(crate) fn roots(line: &[u8]) -> bool {
    samples::roots_checksum(count(line, 1)) == whole(word(line, 2))
}
