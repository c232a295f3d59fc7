// A check behind the octets that it is the check of: put there, and compared.
ghost use Rattle.std.specs.Prelude.{◌≡◌, ◌+◌, ◌≤◌, length, take};
ghost use Rattle.octets.specs.Written.{written};
ghost use Rattle.checks.specs.Check.{check_of, agrees};
ghost use Rattle.checks.specs.Width.{kind_of};

use crate::Width;

// Writes the check of the first n octets of out behind them.
#[tactic(auto, using(crate::proofs::Sealed::octets_most))]
pub fn seal(out: &mut [u8], n: usize, width: Width)
    requires { n + (kind_of width).octets ≤ length out.old }
    ensures { out.new ≡ written out.old n (check_of (kind_of width) (take n out.old)) }
{
    let check = crate::check(&out[..n], width);
    let l = crate::octets_of(width);
    octets::write(out, n, &check[..l]);
}

// Whether the last octets of whole are the check of those before.
#[tactic(auto, using(crate::proofs::Sealed::octets_most, crate::proofs::Sealed::agrees_compared))]
pub fn is_sealed(whole: &[u8], width: Width) -> bool
    requires { (kind_of width).octets ≤ length whole.now }
    ensures { result ≡ agrees (kind_of width) whole.now }
{
    let l = crate::octets_of(width);
    let n = whole.len() - l;
    let check = crate::check(&whole[..n], width);
    octets::same(&whole[n..], &check[..l])
}
