//! The laws of the hand-over record: each is the contract of a function whose body is empty. What it says is a record of `specs/Law`, a field to a sentence, or an equation.
ghost use Rattle.std.specs.Prelude.{◌≡◌, List, ℕ, ◌*◌, ◌≤◌, replicate, Float, Ok};
ghost use Rattle.points.specs.Numbers.{f1};
ghost use Rattle.inscribed.specs.Store.{width, most_slots, slots};
ghost use Rattle.inscribed.specs.declared.Inscribed.{Inscribed};
ghost use Rattle.record.specs.Record.{write_record, read_record, how_many};
ghost use Rattle.record.specs.Law.{WrittenLaw, ReadLaw, LengthLaw, most_record};

/// What is written is read again: where `write_record` gives a record for the circles in use of a store, `read_record` reads it into any store with as many slots.
/// That store then begins with the numbers of these circles, each with the same bits, and every number behind them is as it was.
pub fn written_law(store: &[f64], other: &[f64])
    ensures { (count room : ℕ) (bytes : List ℕ) → write_record store.now count room ≡ Ok bytes → count ≤ slots other.now → WrittenLaw store.now count bytes other.now }
{}

/// What is read is written again: every string of bytes that `read_record` accepts is what `write_record` gives for the store that it was read into, with as many circles in use as were read.
/// No two strings are read as the same circles.
pub fn read_law(bytes: &[u8], store: &[f64])
    ensures { (circles : List Inscribed) → read_record bytes.now (slots store.now) ≡ Ok circles → ReadLaw bytes.now store.now circles }
{}

/// How long a record is: two bytes, two for each circle, and eight for each bit that stands in its maps. The longest has 75,778 bytes.
/// `write_record` gives one that has, for 1,024 circles whose numbers are all 1.
pub fn length_law()
    ensures written { (store : List Float) (count room : ℕ) (bytes : List ℕ) → write_record store count room ≡ Ok bytes → LengthLaw store count bytes }
    ensures reached { how_many (write_record (replicate (width * most_slots) f1) most_slots most_record) ≡ Ok most_record }
{}
