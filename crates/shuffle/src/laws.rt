//! The laws of both rearrangements and of the turn: each is the contract of a function whose body is empty. What it says is a record of `specs/Law`, a field to a sentence.
ghost use Rattle.std.specs.Prelude.{◌≡◌, List, ℕ, ◌*◌, length};
ghost use Rattle.shuffle.specs.Law.{ShuffleLaw, TurnLaw};

/// The law of `shuffle` and `unshuffle`, on the bytes of any count of whole numbers, stated of what they give, `shuffled` and `unshuffled`.
/// The one moves byte i of number k of n to place i × n + k, and the other back from there. Each gives as many bytes as it takes and undoes the other, and neither changes anything where there is no number or one.
pub fn shuffle_law()
    ensures { (n : ℕ) (bytes : List ℕ) → length bytes ≡ 8 * n → ShuffleLaw n bytes }
{}

/// The law of `words::transpose_words`, on any eight words, stated of what it gives, `turned`.
/// Byte i of word k, counted from the least significant, becomes byte k of word i, and the turn made twice gives the eight words back.
pub fn turn_law(words: &[u64])
    ensures { length words.now ≡ 8 → TurnLaw words.now }
{}
