// The inputs of the sample, each from one seed. oracle/sample.rs makes the same ones.
use crate::case::ARGUMENTS;

// The next word of a xorshift generator.
pub(crate) fn next(x: u64) -> u64 {
    let a = x ^ (x << 13);
    let b = a ^ (a >> 7);
    b ^ (b << 17)
}

// A number from 0 up to 1, in steps of 1/1024.
fn grain(word: u64) -> f64 {
    let n = word % 1024;
    n as f64 / 1024.0
}

// A point of a profile at x: to one side of a bent line, by a thickness of that side.
fn side(x: f64, bend: f64, thick: f64) -> f64 {
    let h = x * (10.0 - x) / 25.0;
    let q = 1.0 - x * 0.04;
    bend * h + thick * h * q
}

// A closed profile from (0,0) along its lower side to (10,0) and back. Without its first and its last point it is open.
pub(crate) fn section(seed: u64) -> [f64; 42] {
    let w1 = next(seed);
    let w2 = next(w1);
    let w3 = next(w2);
    let lower = 0.25 + grain(w1);
    let upper = 0.5 + grain(w2);
    let bend = grain(w3) - 0.5;
    let mut numbers = [0.0; 42];
    for j in 0..11 {
        let x = j as f64;
        let i = 2 * j;
        let i1 = i + 1;
        let k = 40 - i;
        let k1 = k + 1;
        numbers[k] = x;
        numbers[k1] = side(x, bend, upper);
        numbers[i] = x;
        numbers[i1] = side(x, bend, -lower);
    }
    numbers
}

// Tolerances, and a line or two circles.
pub(crate) fn args(seed: u64) -> [f64; ARGUMENTS] {
    let w1 = next(seed ^ 0x5555_5555);
    let w2 = next(w1);
    let w3 = next(w2);
    let w4 = next(w3);
    let w5 = next(w4);
    let g1 = grain(w1);
    let g2 = grain(w2);
    let g3 = grain(w3);
    let g4 = grain(w4);
    let g5 = grain(w5);
    let up = if w4 / 1024 % 2 == 0 { 1.0 } else { -1.0 };
    [
        0.001,
        0.002 + g1 * 0.0625,
        g2 * 10.0,
        g3 - 0.5,
        g4 - 0.5,
        up + g5,
        -1.0,
        g1,
        1.0 + g2,
        g3,
        g4,
        2.0 + g5 * 8.0,
        g4 - 0.5,
        g3,
        g4,
        -0.5 - g5,
        g2,
        1.0,
        g5,
        g1,
    ]
}
