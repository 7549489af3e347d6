// Stored numbers sorted by byte place, and back: like bytes lie together, which archives store better.
#![tactic(auto)]

pub mod laws;
mod moving;
pub mod words;

ghost use Rattle.std.specs.Prelude.{◌≡◌};
ghost use Rattle.shuffle.specs.Shuffle.{shuffled, unshuffled, bytes_entry, Rearranged};

use errors::Refusal;
use moving::{Layout, move_numbers};

// The bytes of 9,216 numbers.
pub const MOST_BYTES: usize = 73728;

// The entry tests of both, of a count of bytes and an output's length.
#[tactic(auto, unfolding(crate::specs::Shuffle::bytes_entry))]
fn entered(count: usize, room: usize) -> Result<(), Refusal>
    ensures { result ≡ bytes_entry count room }
{
    if count % 8 != 0 || MOST_BYTES < count {
        Err(Refusal::ByteCount)
    } else if room < count {
        Err(Refusal::NoRoom)
    } else {
        Ok(())
    }
}

// Numbers of eight bytes, sorted by byte place: byte i of number k of n goes to place i × n + k. The output keeps what stands behind them.
#[tactic(auto, using(crate::proofs::EntryLaws::has_room, crate::proofs::EntryLaws::rearranged_refused))]
pub fn shuffle(input: &[u8], out: &mut [u8]) -> Result<(), Refusal>
    ensures { Rearranged shuffled input.now out.old out.new result }
{
    entered(input.len(), out.len())?;
    let n = input.len() / 8;
    move_numbers(input, Layout::together(), out, Layout::sorted(n), n);
    Ok(())
}

// The inverse of `shuffle`: byte i of number k of n comes from place i × n + k.
#[tactic(auto, using(crate::proofs::EntryLaws::has_room, crate::proofs::EntryLaws::rearranged_refused))]
pub fn unshuffle(input: &[u8], out: &mut [u8]) -> Result<(), Refusal>
    ensures { Rearranged unshuffled input.now out.old out.new result }
{
    entered(input.len(), out.len())?;
    let n = input.len() / 8;
    move_numbers(input, Layout::sorted(n), out, Layout::together(), n);
    Ok(())
}
