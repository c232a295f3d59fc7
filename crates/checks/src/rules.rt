// What tells one check from another: what its register starts with, where its generator has its terms, and what that leaves of an octet.
//
// A remainder is worked out by shifting and adding. An octet's highest coefficient is its lowest bit, so that a shift to the right by k
// bits is the product with x^k, and a shift to the left what x^-k times the octet has at x^0 and above. The octet times x^w is q times the
// generator, and a remainder below x^w: q is the octet, and what the generator's lower terms times q have at x^w and above (which hangs on
// the highest coefficients alone, in which q and the octet agree); the remainder is what they have below it.
ghost use Rattle.std.specs.Prelude.{◌≡◌, replicate};
ghost use Rattle.checks.specs.Check.{Kind, eight, sixteen};
ghost use Rattle.checks.specs.Steps.{start, remainder_of, Folds};

use crate::terms::Terms;

// A check of N octets.
pub trait Rule<const N: usize> {
    ghost kind: { Kind };

    // What each octet of the register starts with, and what is added to each in the end.
    fn ones() -> u8
        ensures { start kind ≡ replicate N result };

    // Where the generator has its terms.
    fn terms() -> Terms
        ensures { Folds kind result.near result.middle result.far };

    // What the generator leaves of x^w times the octet.
    fn remainder(octet: u8) -> [u8; N]
        ensures { result ≡ remainder_of kind octet };
}

// The check of 8 bits: x^8 + x^2 + x + 1.
pub struct Eight;

impl Rule<1> for Eight {
    ghost kind = { eight };

    #[tactic(auto, unfolding(crate::specs::Check::eight, crate::specs::Bits::number, crate::specs::Bits::octets_of, crate::specs::Steps::start))]
    fn ones() -> u8 {
        0x00
    }

    #[tactic(auto, using(crate::proofs::Turns::folds8))]
    fn terms() -> Terms {
        Terms {
            near: 6,
            middle: 7,
            far: 8,
        }
    }

    #[tactic(auto, using(crate::proofs::Rule::left8_is))]
    fn remainder(octet: u8) -> [u8; 1] {
        let q = octet ^ (octet << 6) ^ (octet << 7);
        [q ^ (q >> 1) ^ (q >> 2)]
    }
}

// The check of 16 bits: x^16 + x^12 + x^5 + 1.
pub struct Sixteen;

impl Rule<2> for Sixteen {
    ghost kind = { sixteen };

    #[tactic(auto, unfolding(crate::specs::Check::sixteen, crate::specs::Bits::number, crate::specs::Bits::octets_of, crate::specs::Steps::start))]
    fn ones() -> u8 {
        0xFF
    }

    #[tactic(auto, using(crate::proofs::Turns::folds16))]
    fn terms() -> Terms {
        Terms {
            near: 4,
            middle: 11,
            far: 16,
        }
    }

    #[tactic(auto, using(crate::proofs::Rule::left16_is))]
    fn remainder(octet: u8) -> [u8; 2] {
        let q = octet ^ (octet << 4);
        [(q >> 4) ^ (q << 3), q ^ (q >> 5)]
    }
}
