// Votes, and what they decide.
ghost use Rattle.std.specs.Prelude.{◌≡◌, ℕ, Bool, ◌<◌};
ghost use Rattle.std.specs.List.{range_with_len};
ghost use Rattle.errors.specs.Answer.{Answer};
ghost use Rattle.orient.specs.Votes.{majority};

use errors::Refusal;

// Whether more of `count` votes are yes than not. They are asked for in order, and the first refusal is the answer.
pub(crate) fn is_majority<F: Fn(usize) -> Result<bool, Refusal>>(
    count: usize,
    vote: F,
) -> Result<bool, Refusal>
    requires { (k : ℕ) → k < count → F.pre vote k }
    ensures { (v : ℕ → Answer Bool) → ((k : ℕ) → (r : Answer Bool) → k < count → F.post vote k r → r ≡ v k) → result ≡ majority v (range_with_len 0 count) }
{
    let mut votes = 0;
    for k in 0..count {
        if vote(k)? {
            votes += 1;
        }
    }
    Ok(count - votes < votes)
}
