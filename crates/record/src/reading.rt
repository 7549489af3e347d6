// A record read from the front, into circles that stand aside until all of it is read.
ghost use Rattle.std.specs.Prelude.{◌≡◌, ◌*◌, ◌≤◌, [], length};
ghost use Rattle.std.specs.Int.{w16, w64};
ghost use Rattle.inscribed.specs.Store.{width, most_slots, stored};
ghost use Rattle.record.specs.Record.{number_at, is_length, bad_field, number_of_field, field_at, number_from, numbers_at, circle_read, circles_read, counted_read};
ghost use Rattle.record.specs.Code.{seen, seen_circles};

use arrayvec::ArrayVec;
use errors::{Finite, Refusal};
use inscribed::Inscribed;
use inscribed::checked::{circle_at, put_circle};
use inscribed::store::{MOST_SLOTS, WIDTH, is_bad_length};

// The greatest map: a bit for each number of a circle.
const MOST_MAP: u16 = (1 << WIDTH) - 1;

// The sign bit.
const SIGN_BIT: u64 = 0x8000_0000_0000_0000;

// The bits of an infinity above zero. Without their sign bit, a NaN's are greater.
const INFINITE_BITS: u64 = 0x7ff0_0000_0000_0000;

// A count or a map, and the bytes behind it: 24 where it is cut off.
fn read_short(bytes: &[u8]) -> Result<(u16, &[u8]), Refusal>
    ensures { seen result ≡ number_at w16 bytes.now }
{
    match bytes.split_first_chunk() {
        Some((front, rest)) => Ok((u16::from_le_bytes(*front), rest)),
        None => Err(Refusal::RecordLength),
    }
}

// The bits of a number, and the bytes behind them: 24 where they are cut off.
fn read_word(bytes: &[u8]) -> Result<(u64, &[u8]), Refusal>
    ensures { seen result ≡ number_at w64 bytes.now }
{
    match bytes.split_first_chunk() {
        Some((front, rest)) => Ok((u64::from_le_bytes(*front), rest)),
        None => Err(Refusal::RecordLength),
    }
}

// Whether a number at place i of a circle is its radius or a length along.
fn is_length(i: usize) -> bool
    ensures { result ≡ is_length i }
{
    i == 2 || 6 < i
}

// A number at place i of a circle that isn't finite, or is a length below zero.
fn is_bad_field(i: usize, x: f64) -> bool
    ensures { result ≡ bad_field i x }
{
    if is_length(i) {
        is_bad_length(x)
    } else {
        !x.all_finite()
    }
}

// The number at place i of a circle, of its bits: 25 for no bit, 2 for a bad number.
#[tactic(auto, using(crate::proofs::Words::nan_refused, crate::proofs::Words::no_nan), unfolding(crate::specs::Record::number_of_field))]
fn number_of_field(i: usize, bits: u64) -> Result<f64, Refusal>
    ensures { result ≡ number_of_field i bits }
{
    if bits == 0 {
        return Err(Refusal::RecordMap);
    }
    if INFINITE_BITS < bits % SIGN_BIT {
        return Err(Refusal::BadNumber);
    }
    let x = f64::from_bits(bits);
    if is_bad_field(i, x) {
        Err(Refusal::BadNumber)
    } else {
        Ok(x)
    }
}

// The field at place i of a circle, and the bytes behind it.
#[tactic(auto, unfolding(crate::specs::Record::field_at))]
fn read_field(i: usize, bytes: &[u8]) -> Result<(f64, &[u8]), Refusal>
    ensures { seen result ≡ field_at i bytes.now }
{
    let (word, rest) = read_word(bytes)?;
    Ok((number_of_field(i, word)?, rest))
}

// The number at place i of a circle, whose bit is the map's lowest, and the bytes behind it. A clear bit stands for +0.
#[tactic(auto, unfolding(crate::specs::Record::number_from))]
fn read_number(i: usize, map: u16, bytes: &[u8]) -> Result<(f64, &[u8]), Refusal>
    ensures { seen result ≡ number_from i map bytes.now }
{
    if map % 2 == 0 {
        Ok((0.0, bytes))
    } else {
        read_field(i, bytes)
    }
}

// The numbers of a circle, by its map.
fn read_numbers(map: u16, bytes: &[u8]) -> Result<([f64; WIDTH], &[u8]), Refusal>
    ensures { seen result ≡ numbers_at width 0 map bytes.now }
{
    let mut numbers = [0.0; WIDTH];
    let mut bits = map;
    let mut rest = bytes;
    for i in 0..WIDTH {
        let (x, left) = read_number(i, bits, rest)?;
        numbers[i] = x;
        bits /= 2;
        rest = left;
    }
    Ok((numbers, rest))
}

// A circle: 24 where its map is cut off, 25 for a bit beyond its numbers.
#[tactic(auto, unfolding(crate::specs::Record::circle_read))]
fn read_circle(bytes: &[u8]) -> Result<(Inscribed, &[u8]), Refusal>
    ensures { seen result ≡ circle_read bytes.now }
{
    let (map, rest) = read_short(bytes)?;
    if MOST_MAP < map {
        return Err(Refusal::RecordMap);
    }
    let (numbers, rest) = read_numbers(map, rest)?;
    Ok((circle_at(&numbers, 0), rest))
}

// So many circles, each put behind those in the list. Returns the bytes behind them.
fn read_circles<'a>(
    count: usize,
    bytes: &'a [u8],
    circles: &mut ArrayVec<Inscribed, MOST_SLOTS>,
) -> Result<&'a [u8], Refusal>
    requires none { circles.old.items ≡ [] }
    requires few { count ≤ most_slots }
    ensures { seen_circles result circles.new.items ≡ circles_read count bytes.now }
{
    let mut rest = bytes;
    for _ in 0..count {
        let (circle, left) = read_circle(rest)?;
        circles.push(circle);
        rest = left;
    }
    Ok(rest)
}

// A record's count, and as many circles: 4 where there are fewer slots. Returns the bytes behind them.
#[tactic(auto, unfolding(crate::specs::Record::counted_read))]
pub(crate) fn read_counted<'a>(
    bytes: &'a [u8],
    slots: usize,
    circles: &mut ArrayVec<Inscribed, MOST_SLOTS>,
) -> Result<&'a [u8], Refusal>
    requires none { circles.old.items ≡ [] }
    requires few { slots ≤ most_slots }
    ensures { seen_circles result circles.new.items ≡ counted_read bytes.now slots }
{
    let (count, rest) = read_short(bytes)?;
    let count = usize::from(count);
    if slots < count {
        return Err(Refusal::NoRoom);
    }
    read_circles(count, rest, circles)
}

// Puts circles into a store, from its first slot on.
pub(crate) fn store_circles(store: &mut [f64], circles: &[Inscribed])
    requires { length circles.now * width ≤ length store.old }
    ensures { store.new ≡ stored circles.now store.old }
{
    for (k, circle) in circles.iter().enumerate() {
        put_circle(store, k, *circle);
    }
}
