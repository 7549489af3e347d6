// Eight 64-bit words as eight by eight bytes.
ghost use Rattle.std.specs.Prelude.{◌≡◌, ◌+◌, ◌*◌, ◌<◌, ◌≤◌, length};
ghost use Rattle.shuffle.specs.Shuffle.{tabulated};
ghost use Rattle.shuffle.specs.Words.{byte_of, turned};
ghost use Rattle.shuffle.specs.Code.{lower, upper, bytes_of, word_place, Holds, HoldsEight, Moved};

// The lower of each two runs of four bytes, of two bytes, of one byte.
const FOURS: u64 = 0x0000_0000_ffff_ffff;

const TWOS: u64 = 0x0000_ffff_0000_ffff;

const ONES: u64 = 0x00ff_00ff_00ff_00ff;

// What stands under the mask in b is exchanged with what stands `shift` bits above it in a.
#[tactic(auto, unfolding(crate::specs::Code::lower, crate::specs::Code::upper))]
fn exchanged(a: u64, b: u64, shift: u32, mask: u64) -> (u64, u64)
    requires { shift < 64 }
    ensures { (result.0 ≡ lower shift mask a b) × (result.1 ≡ upper shift mask a b) }
{
    let apart = ((a >> shift) ^ b) & mask;
    (a ^ (apart << shift), b ^ apart)
}

// The turn: byte i of word k, counted from the least significant, becomes byte k of word i. Three rounds exchange halves, quarters and single bytes of words that are four, two and one apart.
pub fn transpose_words(words: &mut [u64; 8])
    ensures { words.new ≡ turned words.old }
{
    let [w0, w1, w2, w3, w4, w5, w6, w7] = *words;
    let (a0, a4) = exchanged(w0, w4, 32, FOURS);
    let (a1, a5) = exchanged(w1, w5, 32, FOURS);
    let (a2, a6) = exchanged(w2, w6, 32, FOURS);
    let (a3, a7) = exchanged(w3, w7, 32, FOURS);
    let (b0, b2) = exchanged(a0, a2, 16, TWOS);
    let (b1, b3) = exchanged(a1, a3, 16, TWOS);
    let (b4, b6) = exchanged(a4, a6, 16, TWOS);
    let (b5, b7) = exchanged(a5, a7, 16, TWOS);
    let (c0, c1) = exchanged(b0, b1, 8, ONES);
    let (c2, c3) = exchanged(b2, b3, 8, ONES);
    let (c4, c5) = exchanged(b4, b5, 8, ONES);
    let (c6, c7) = exchanged(b6, b7, 8, ONES);
    *words = [c0, c1, c2, c3, c4, c5, c6, c7];
}

// The word of eight bytes from a place on, least significant first.
fn word_at(bytes: &[u8], at: usize) -> u64
    requires { at + 8 ≤ length bytes.now }
    ensures { Holds bytes.now at result }
{
    u64::from_le_bytes(bytes[at..at + 8].try_into().unwrap())
}

// Eight words from a place on, each `step` behind the one before.
pub(crate) fn words_at(bytes: &[u8], at: usize, step: usize) -> [u64; 8]
    requires { at + 7 * step + 8 ≤ length bytes.now }
    ensures { HoldsEight bytes.now at step result }
{
    let mut words = [0; 8];
    for (j, word) in words.iter_mut().enumerate() {
        *word = word_at(bytes, at + j * step);
    }
    words
}

// Writes a word's bytes from a place on, least significant first. One by one: `copy_from_slice` is compiled with a test for overlap at every word, and misses the bar of speed.
fn put_word(out: &mut [u8], at: usize, word: u64)
    requires { at + 8 ≤ length out.old }
    ensures { Moved (λ i. i) (λ i. at + i) 8 (tabulated 8 (λ i. byte_of i word)) out.old out.new }
{
    for (i, byte) in word.to_le_bytes().iter().enumerate() {
        out[at + i] = *byte;
    }
}

// Writes eight words from a place on, each `step` behind the one before.
pub(crate) fn put_words(out: &mut [u8], at: usize, step: usize, words: &[u64; 8])
    requires le_step { 8 ≤ step }
    requires step_in_bounds { at + 7 * step + 8 ≤ length out.old }
    ensures { Moved (λ p. p) (word_place at step) 64 (bytes_of words.now) out.old out.new }
{
    for (j, word) in words.iter().enumerate() {
        put_word(out, at + j * step, *word);
    }
}
