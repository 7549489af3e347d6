// The text of a table: the words of a line, and the numbers that words write.
// A number is written in decimal digits, or as x and its 64 bits in 16 hexadecimal digits, or as nan, inf or -inf.
ghost use Rattle.std.specs.Prelude.{◌≤◌};

use crate::bits;

// What stands between two words.
pub(crate) fn is_blank(c: &u8) -> bool {
    *c == b' '
}

// Word number k of a line, counted from 0; an empty one where there are fewer. One blank stands between two words.
pub(crate) fn word(line: &[u8], k: usize) -> &[u8] {
    line.split(is_blank).nth(k).unwrap_or(b"")
}

// What digits to the base `radix` write; 0 where they write nothing.
fn digits(word: &[u8], radix: u32) -> u64
    requires { (2 ≤ radix) × (radix ≤ 36) }
{
    str::from_utf8(word).map_or(0, |text| u64::from_str_radix(text, radix).unwrap_or(0))
}

// The whole number that a word writes, in decimal digits, or as x and hexadecimal ones.
pub(crate) fn whole(word: &[u8]) -> u64 {
    match word {
        [b'x', bits @ ..] => digits(bits, 16),
        _ => digits(word, 10),
    }
}

// The number that decimal digits write; NaN where they write none.
fn decimal(word: &[u8]) -> f64 {
    str::from_utf8(word).map_or(f64::NAN, |text| text.parse().unwrap_or(f64::NAN))
}

// The number that a word writes.
pub(crate) fn number(word: &[u8]) -> f64 {
    match word {
        [b'x', ..] => bits::float(whole(word)),
        _ => decimal(word),
    }
}

// Word k of a line as a count.
pub(crate) fn count(line: &[u8], k: usize) -> usize {
    whole(word(line, k)) as usize
}
