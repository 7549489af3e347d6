// The thickest circle of a lent slice of circle records.
ghost use Rattle.std.specs.Prelude.{◌≡◌};
ghost use Rattle.inscribed.specs.Store.{any_bad};
ghost use Rattle.lists.specs.Asked.{tmax_records};

use errors::Refusal;
use inscribed::Inscribed;
use inscribed::checked::index_of_greatest;

// Test 2 of records: a number that isn't finite, or a radius or a length along below zero.
fn has_bad_record(circles: &[Inscribed]) -> bool
    ensures { result ≡ any_bad circles.now }
{
    circles.iter().any(|c| inscribed::store::is_bad_circle(*c))
}

// The place of the thickest circle, the last of equal ones; 0 where there is none. 2 where a number isn't finite or a radius or a length along is below zero.
#[tactic(auto, unfolding(crate::specs::Asked::tmax_records))]
pub fn index_of_tmax_of(circles: &[Inscribed]) -> Result<usize, Refusal>
    ensures { result ≡ tmax_records circles.now }
{
    if has_bad_record(circles) {
        Err(Refusal::BadNumber)
    } else {
        Ok(index_of_greatest(circles.len(), |k| circles[k].r))
    }
}
