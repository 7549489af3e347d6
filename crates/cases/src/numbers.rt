// Slices of numbers that the lines of a table fill, and what is compared of them. Numbers are compared by their bits: by `==` a NaN would never come out right, and a zero of the other sign would.
use crate::bits;
use crate::table::{is_blank, number};
use inscribed::store::WIDTH;

// The first numbers from a place on; NaN where there are fewer.
pub(crate) fn numbers_from<const N: usize>(numbers: &[f64], at: usize) -> [f64; N] {
    let mut found = [f64::NAN; N];
    for (x, y) in found.iter_mut().zip(numbers.iter().skip(at)) {
        *x = *y;
    }
    found
}

// Puts numbers at the start of others, as far as there is room.
pub(crate) fn put(to: &mut [f64], numbers: &[f64]) {
    for (x, y) in to.iter_mut().zip(numbers) {
        *x = *y;
    }
}

// Whether two slices hold the same numbers.
pub(crate) fn are_same(a: &[f64], b: &[f64]) -> bool {
    a.len() == b.len()
        && a.iter()
            .zip(b)
            .all(|(x, y)| bits::pattern(*x) == bits::pattern(*y))
}

// Whether numbers are those of a line from word 1 on, and behind them the mark alone.
pub(crate) fn holds(numbers: &[f64], line: &[u8], mark: f64) -> bool {
    let mut words = line.split(is_blank).skip(1);
    // No `all`: its closure can't capture the words that are left.
    for x in numbers {
        let y = words.next().map_or(mark, number);
        if bits::pattern(*x) != bits::pattern(y) {
            return false;
        }
    }
    true
}

// Writes the numbers of a line from word k on, and returns how many they are.
pub(crate) fn write(numbers: &mut [f64], line: &[u8], k: usize) -> usize {
    let mut count = 0;
    for (i, (x, word)) in numbers
        .iter_mut()
        .zip(line.split(is_blank).skip(k))
        .enumerate()
    {
        *x = number(word);
        count = i + 1;
    }
    count
}

// The points (0,0), (1,0), (2,0) and so on.
pub(crate) fn row(numbers: &mut [f64]) {
    let mut x = 0.0;
    numbers.fill(0.0);
    for point in numbers.chunks_exact_mut(2) {
        put(point, &[x]);
        x += 1.0;
    }
}

// Circles of R, each 1/256 to the right of the one before: by row P7, what R has on upright lines.
pub(crate) fn rank(numbers: &mut [f64]) {
    let mut x = 1.0;
    for circle in numbers.chunks_exact_mut(WIDTH) {
        put(circle, &upright(x));
        x += 0.00390625;
    }
}

// The circle that R has on the upright line at x.
fn upright(x: f64) -> [f64; WIDTH] {
    [x, 1.00048828125, 0.99951171875, x, 0.0, x, 2.0, x, 18.0 - x]
}

// As many copies of a circle as there is room for.
pub(crate) fn copies(numbers: &mut [f64], circle: [f64; WIDTH]) {
    for slot in numbers.chunks_exact_mut(WIDTH) {
        put(slot, &circle);
    }
}
