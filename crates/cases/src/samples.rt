// Inputs from a seed each, and checksums of answers: of a sample that engeom's published functions answered in oracle/, and of square roots that the processor worked out.
use crate::asked::Told;
use crate::bits;
use inscribed::store::WIDTH;

pub(crate) mod inputs;

// One more word in a checksum below 2^31 - 1.
fn mixed(sum: u64, word: u64) -> u64 {
    let low = word % 0x8000_0000;
    let high = word / 0x8000_0000 % 0x8000_0000;
    (sum % 0x7fff_ffff * 69069 + low * 3 + high) % 0x7fff_ffff
}

// The same for numbers, by their bits.
fn mixed_numbers(sum: u64, numbers: &[f64]) -> u64 {
    numbers.iter().fold(sum, |s, x| mixed(s, bits::pattern(*x)))
}

// How many of a circle's numbers the published functions have: all but the lengths along.
pub(crate) const PUBLISHED: usize = WIDTH - 2;

// The same for a store, by those numbers of its circles that the published functions have.
fn mixed_circles(sum: u64, store: &[f64]) -> u64 {
    store
        .chunks_exact(WIDTH)
        .fold(sum, |s, circle| mixed_numbers(s, &circle[..PUBLISHED]))
}

// The checksum of an answer: its words, its numbers and the store, or the refusal's number alone.
pub(crate) fn checksum_of(told: &Told, out: &[f64], store: &[f64]) -> u64 {
    let sum = mixed(1, told[0]);
    if told[0] != 0 {
        return sum;
    }
    let sum = mixed(mixed(sum, told[1]), told[2]);
    mixed_circles(mixed_numbers(sum, out), store)
}

// The root of x asked for directly: its bits, or the number of its refusal.
pub(crate) fn root_bits(x: f64) -> u64 {
    let mut root: f64 = 0.0;
    match rummyteak::rummyteak_sqrt(x, &mut root) {
        0 => bits::pattern(root),
        number => u64::from(number),
    }
}

// The checksum of the roots of n generated patterns, the sign bit cleared.
pub(crate) fn roots_checksum(n: usize) -> u64 {
    let mut sum: u64 = 1;
    let mut x: u64 = 0x9e37_79b9_7f4a_7c15;
    for _root in 0..n {
        x = inputs::next(x);
        sum = mixed(sum, root_bits(bits::float(x % 0x8000_0000_0000_0000)));
    }
    sum
}
