// The hand-over record: circles as one string of bytes, written from a store and read into one.
ghost use Rattle.std.specs.Prelude.{◌≡◌, length};
ghost use Rattle.inscribed.specs.Store.{slots};
ghost use Rattle.record.specs.Record.{write_record, read_record, output_after, store_after, how_many};
ghost use Rattle.rummyteak.specs.Told.{told};

use crate::telling;

// The circles in use as a record: how many bytes it has.
pub fn rummyteak_write_record(
    store: &[f64],
    count: usize,
    out: &mut [u8],
    written: &mut usize,
) -> u32
    ensures written_after { (record { number = result; left = written.new }) ≡ told written.old (how_many (write_record store.now count (length out.old))) }
    ensures out_after { out.new ≡ output_after (write_record store.now count (length out.old)) out.old }
{
    telling::tell(record::write_record(store, count, out), written)
}

// A record's circles into a store: how many they are.
pub fn rummyteak_read_record(bytes: &[u8], store: &mut [f64], count: &mut usize) -> u32
    ensures count_after { (record { number = result; left = count.new }) ≡ told count.old (how_many (read_record bytes.now (slots store.old))) }
    ensures store_after { store.new ≡ store_after (read_record bytes.now (slots store.old)) store.old }
{
    telling::tell(record::read_record(bytes, store), count)
}
