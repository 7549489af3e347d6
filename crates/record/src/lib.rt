// The hand-over record of a list of circles: one string of bytes, written from a store and read into one.
#![tactic(auto)]

pub mod laws;
mod reading;
mod writing;

ghost use Rattle.std.specs.Prelude.{◌≡◌, length, IfOk};
ghost use Rattle.errors.specs.Answer.{passed};
ghost use Rattle.inscribed.specs.Store.{slots};
ghost use Rattle.record.specs.Record.{write_entry, write_record, read_record, Wrote, ReadInto};

use arrayvec::ArrayVec;
use errors::Refusal;
use inscribed::checked::CirclesInUse;
use inscribed::store::{MOST_SLOTS, slots_in};

// The entry tests of a writer. The circles in use are handed on where they passed.
#[tactic(auto, unfolding(crate::specs::Record::write_entry))]
fn entered(store: &[f64], count: usize, room: usize) -> Result<CirclesInUse<'_>, Refusal>
    ensures entry { passed result ≡ write_entry store.now count room }
    ensures lent { IfOk result (λ c. (c.store.now ≡ store.now) × (c.count ≡ count)) }
{
    if inscribed::store::is_bad_store_count(store, count) {
        return Err(Refusal::NoRoom);
    }
    let circles = CirclesInUse { store, count };
    if room < writing::record_length(&circles) {
        Err(Refusal::NoRoom)
    } else if inscribed::store::has_bad_circle(store, count) {
        Err(Refusal::BadNumber)
    } else {
        Ok(circles)
    }
}

// Writes the circles in use of a store as a record. Returns how many bytes it has; behind them the output keeps what stood there.
pub fn write_record(store: &[f64], count: usize, out: &mut [u8]) -> Result<usize, Refusal>
    ensures { Wrote (write_record store.now count (length out.old)) out.old out.new result }
{
    let circles = entered(store, count, out.len())?;
    Ok(writing::put_record(out, &circles))
}

// Reads a record's circles into a store. Returns how many they are; a store changes only where all of the record was read.
#[tactic(auto, using(crate::proofs::Entries::read_few), unfolding(crate::specs::Record::read_record))]
pub fn read_record(bytes: &[u8], store: &mut [f64]) -> Result<usize, Refusal>
    ensures { ReadInto (read_record bytes.now (slots store.old)) store.old store.new result }
{
    let mut circles = ArrayVec::new();
    let rest = reading::read_counted(bytes, slots_in(store.len(), MOST_SLOTS), &mut circles)?;
    if !rest.is_empty() {
        return Err(Refusal::RecordLength);
    }
    reading::store_circles(store, circles.as_slice());
    Ok(circles.len())
}
