// Stored numbers as bytes: sorted by byte place, and back; and the turn of eight words, by which that is done.
ghost use Rattle.std.specs.Prelude.{◌≡◌, length};
ghost use Rattle.errors.specs.Answer.{number};
ghost use Rattle.shuffle.specs.Shuffle.{shuffled, unshuffled, bytes_entry, output_after};
ghost use Rattle.shuffle.specs.Words.{turned};

use crate::telling;

// Numbers of eight bytes, sorted by byte place.
pub fn rummyteak_shuffle(bytes: &[u8], out: &mut [u8]) -> u32
    ensures value { result ≡ number (bytes_entry (length bytes.now) (length out.old)) }
    ensures out_after { out.new ≡ output_after (bytes_entry (length bytes.now) (length out.old)) (shuffled bytes.now) out.old }
{
    telling::number(shuffle::shuffle(bytes, out))
}

// The inverse.
pub fn rummyteak_unshuffle(bytes: &[u8], out: &mut [u8]) -> u32
    ensures value { result ≡ number (bytes_entry (length bytes.now) (length out.old)) }
    ensures out_after { out.new ≡ output_after (bytes_entry (length bytes.now) (length out.old)) (unshuffled bytes.now) out.old }
{
    telling::number(shuffle::unshuffle(bytes, out))
}

// The turn of eight words. It refuses nothing.
pub fn rummyteak_transpose_words(words: &mut [u64; 8]) -> u32
    ensures value { result ≡ 0 }
    ensures words_after { words.new ≡ turned words.old }
{
    shuffle::words::transpose_words(words);
    0
}
