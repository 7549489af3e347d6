// A record written from the circles of a store.
ghost use Rattle.std.specs.Prelude.{◌≡◌, ◌+◌, ◌≤◌, length};
ghost use Rattle.std.specs.Float.{binary64};
ghost use Rattle.std.specs.Float.Ieee.{to_bits};
ghost use Rattle.inscribed.specs.Store.{circles_of};
ghost use Rattle.record.specs.Record.{map_of, fields_of, circle_record, record_of};
ghost use Rattle.record.specs.Code.{Puts};

use inscribed::Inscribed;
use inscribed::checked::CirclesInUse;
use inscribed::store::WIDTH;

// The bits of a NaN.
const NAN_BITS: u64 = 0x7ff8_0000_0000_0000;

// A number's 64 bits. Every NaN counts as one and the same: the writer asks of it only that not all of its bits are zero.
fn bits_of(x: f64) -> u64
    ensures { result ≡ to_bits binary64 x }
{
    if x.is_nan() { NAN_BITS } else { x.to_bits() }
}

// The map of a circle's numbers: bit 0 is for the first.
fn map_of(numbers: &[f64; WIDTH]) -> u16
    ensures { result ≡ map_of numbers.now }
{
    let mut map = 0;
    for i in 0..WIDTH {
        map = 2 * map + u16::from(bits_of(numbers[WIDTH - 1 - i]) != 0);
    }
    map
}

// How many bytes a circle has in a record: two, and eight for each bit that stands in its map.
fn circle_length(c: Inscribed) -> usize
    ensures { result ≡ length (circle_record c) }
{
    2 + 8 * map_of(&c.numbers()).count_ones() as usize
}

// How many bytes a record has.
pub(crate) fn record_length(circles: &CirclesInUse<'_>) -> usize
    ensures { result ≡ length (record_of (circles_of circles.now.store.now circles.now.count)) }
{
    let mut sum = 2;
    for k in 0..circles.count {
        sum += circle_length(circles.at(k));
    }
    sum
}

// Puts bytes into an output from a place on. Returns the place behind them.
#[tactic(auto, unfolding(crate::specs::Code::placed))]
fn put(out: &mut [u8], at: usize, bytes: &[u8]) -> usize
    requires { at + length bytes.now ≤ length out.old }
    ensures { Puts at bytes.now out.old out.new result }
{
    let end = at + bytes.len();
    out[at..end].copy_from_slice(bytes);
    end
}

// Puts the fields of a circle's numbers.
fn put_fields(out: &mut [u8], at: usize, numbers: &[f64; WIDTH]) -> usize
    requires { at + length (fields_of numbers.now) ≤ length out.old }
    ensures { Puts at (fields_of numbers.now) out.old out.new result }
{
    let mut place = at;
    for x in numbers {
        let bits = bits_of(*x);
        if bits != 0 {
            place = put(out, place, &bits.to_le_bytes());
        }
    }
    place
}

// Puts a circle: its map, and the fields whose bit stands.
fn put_circle(out: &mut [u8], at: usize, c: Inscribed) -> usize
    requires { at + length (circle_record c) ≤ length out.old }
    ensures { Puts at (circle_record c) out.old out.new result }
{
    let numbers = c.numbers();
    let place = put(out, at, &map_of(&numbers).to_le_bytes());
    put_fields(out, place, &numbers)
}

// Puts a record from the output's start on: the count, then circle after circle.
pub(crate) fn put_record(out: &mut [u8], circles: &CirclesInUse<'_>) -> usize
    requires { length (record_of (circles_of circles.now.store.now circles.now.count)) ≤ length out.old }
    ensures { Puts 0 (record_of (circles_of circles.now.store.now circles.now.count)) out.old out.new result }
{
    let mut place = put(out, 0, &(circles.count as u16).to_le_bytes());
    for k in 0..circles.count {
        place = put_circle(out, place, circles.at(k));
    }
    place
}
