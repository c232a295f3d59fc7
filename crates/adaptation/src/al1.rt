// AL1 (000, 7.2).
ghost use Rattle.std.specs.Prelude.{◌≡◌};
ghost use Rattle.adaptation.specs.AL1.{passed, passed_says};

use crate::{Badge, LONGEST_UNIT};
use calls::Refusal;

// Passes a unit as it is, if it has an octet and no more than the longest: else refusal 2. The badge is AL1's.
#[tactic(auto, using(crate::proofs::Deciding::decides), unfolding(crate::specs::AL1::passed))]
pub fn pass(unit: &[u8]) -> Result<Badge, Refusal>
    ensures { passed_says result unit.now ≡ passed unit.now }
{
    if unit.is_empty() || LONGEST_UNIT < unit.len() {
        return Err(Refusal::BadLength);
    }
    Ok(Badge::Unchecked)
}
