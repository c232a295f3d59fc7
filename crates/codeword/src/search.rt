// Search for the roots of the error locator among the inverses of the places' locators: α^(256 - n), α^(257 - n), .. for the places of n
// from the first on. Its values at 16 places in a row are worked out side by side, and looked through only where the least of them is zero.
ghost use Rattle.std.specs.Prelude.{◌≡◌, ℕ, ◌+◌, ◌<◌, ◌≤◌, min, get_or};
ghost use Rattle.codeword.specs.CodeWord.{longest_word};
ghost use Rattle.codeword.specs.Element.{octet};
ghost use Rattle.codeword.specs.Places.{inverses};
ghost use Rattle.codeword.specs.Lanes.{Lanes, lanes, along, Reached};
ghost use Rattle.codeword.specs.Search.{value_of, SearchIs, LeastOf, Gathered};

use crate::LONGEST_WORD;
use crate::lanes::LANES;
use crate::powers::Powers;
use field::ORDER;

// The octets of the array of values: those of 255 places, and as many more as 16 at a time reach past them.
const VALUES: usize = 272;

// The places found, rising from the front, and how many these are: with no heap, an array and its length.
#[derive(Clone, Copy)]
pub struct Places {
    pub at: [u8; LONGEST_WORD],
    pub count: usize,
}

// c[0] + c[1] x + .. + c[l] x^l at the 16 points α^k, α^(k + 1), .., by Horner's rule.
fn values(c: &[u8; LONGEST_WORD], l: usize, k: usize, powers: &Powers) -> [u8; LANES]
    requires { (l < longest_word) × Reached k }
    ensures { Lanes (λ i. value_of c.now (l + 1) (along k i)) result }
{
    let mut a = [c[l]; LANES];
    for j in (0..l).rev() {
        let next = powers.ahead(a, k, [c[j]; LANES]);
        a = next;
    }
    a
}

// The values of the polynomial c, of degree at most l, at the inverses of the locators of the n places, into the front of v.
fn all_values(c: &[u8; LONGEST_WORD], l: usize, n: usize, powers: &Powers, v: &mut [u8; VALUES])
    requires { (l < longest_word) × (n ≤ longest_word) }
    ensures { (p : ℕ) → p < n → get_or v.new p 0 ≡ value_of c.now (l + 1) (octet (inverses n p)) }
{
    for p in (0..n).step_by(LANES) {
        let a = values(c, l, ORDER + 1 - n + p, powers);
        octets::write(v, p, &a);
    }
}

// The least of 16 octets of v, from o on.
fn least(v: &[u8; VALUES], o: usize) -> u8
    requires { o + lanes ≤ 272 }
    ensures { LeastOf lanes o v.now result }
{
    let mut r = u8::MAX;
    for i in 0..LANES {
        r = r.min(v[o + i]);
    }
    r
}

// `at` lists the `count` places below `from` at which v is zero: lists those below `to` too, and answers how many these are together. It is
// called for few blocks, and stands apart so that the loop over all of them stays short: out of reach at e = 1 takes 4,347 instructions
// in place of 4,417.
#[inline(never)]
fn gather(
    v: &[u8; VALUES],
    from: usize,
    to: usize,
    at: &mut [u8; LONGEST_WORD],
    count: usize,
) -> usize
    requires { Gathered from v.now at.old count × (from ≤ to) × (to ≤ longest_word) }
    ensures { Gathered to v.now at.new result }
{
    let mut n = count;
    for p in from..to {
        if v[p] == 0 {
            at[n] = p as u8;
            n += 1;
        }
    }
    n
}

// The same of 16 of n places, or those that are left: where the least of 16 values is not zero, none is.
fn block(
    v: &[u8; VALUES],
    from: usize,
    n: usize,
    at: &mut [u8; LONGEST_WORD],
    count: usize,
) -> usize
    requires { Gathered from v.now at.old count × (from ≤ n) × (n ≤ longest_word) }
    ensures { Gathered (min n (from + lanes)) v.now at.new result }
{
    if least(v, from) != 0 {
        return count;
    }
    gather(v, from, n.min(from + LANES), at, count)
}

// All places of n at the inverse of whose locator the polynomial c, of degree at most l, is zero.
pub(crate) fn search(c: &[u8; LONGEST_WORD], l: usize, n: usize, powers: &Powers) -> Places
    requires { (l < longest_word) × (n ≤ longest_word) }
    ensures { SearchIs n l c.now result.at result.count }
{
    let mut v = [0u8; VALUES];
    all_values(c, l, n, powers, &mut v);
    let mut at = [0u8; LONGEST_WORD];
    let mut count: usize = 0;
    for p in (0..n).step_by(LANES) {
        count = block(&v, p, n, &mut at, count);
    }
    Places { at, count }
}
