// Find the error values by Forney's formula, and take the errors out of the word.
//
// The value at a place is the evaluator's value over the derivative's, both taken at the inverse of the place's locator. The locator and the
// evaluator have the same constant as a factor, so the quotient has none. In characteristic 2 the derivative of c is c[1] + c[3] x^2 + c[5] x^4 + ..,
// so its value at x is that of c[1], c[3], c[5], .. at x^2. Sixteen places are taken at once.
ghost use Rattle.std.specs.Prelude.{ℕ, ◌+◌, ◌<◌, ◌≤◌, length, get_or};
ghost use Rattle.codeword.specs.CodeWord.{longest_word};
ghost use Rattle.codeword.specs.Lanes.{lanes, Filled, Lanes};
ghost use Rattle.codeword.specs.Element.{octet};
ghost use Rattle.codeword.specs.Places.{inverses};
ghost use Rattle.codeword.specs.Search.{value_of};
ghost use Rattle.codeword.specs.Values.{OddsAre, error_of, Added, Corrected};

use crate::lanes::LANES;
use crate::powers::Powers;
use crate::{LONGEST_WORD, lanes};
use field::ORDER;
use std::array;

// The odd ones of the locator's first 128 coefficients: c[1], c[3], ..
pub(crate) fn odds(c: &[u8; LONGEST_WORD]) -> [u8; 64]
    ensures { (l : ℕ) → l < 128 → OddsAre l c.now result }
{
    array::from_fn(|h| c[2 * h + 1])
}

// f[0] + f[1] x + .. + f[n - 1] x^(n - 1), by Horner's rule, at 16 points.
fn horner(f: &[u8], n: usize, x: [u8; LANES]) -> [u8; LANES]
    requires { n ≤ length f.now }
    ensures { Lanes (λ k. value_of f.now n (get_or x k 0)) result }
{
    let mut v = [0u8; LANES];
    for i in (0..n).rev() {
        let next = lanes::horner(x, v, f[i]);
        v = next;
    }
    v
}

// The error values at 16 points: the evaluator's value over the derivative's.
fn errors(o: &[u8; 256], d: &[u8; 64], l: usize, x: [u8; LANES]) -> [u8; LANES]
    requires { l < 128 }
    ensures { Lanes (λ k. error_of o.now d.now l (get_or x k 0)) result }
{
    let a = horner(o, l, x);
    let b = horner(d, (l + 1) / 2, lanes::products(x, x));
    lanes::quotients(a, b)
}

// The inverses of the locators of the places that are listed, of n; at most 16.
fn points(at: &[u8], n: usize, powers: &Powers) -> [u8; LANES]
    requires few { (length at.now ≤ lanes) × (n ≤ longest_word) }
    requires inside { (i : ℕ) → i < length at.now → get_or at.now i 0 < n }
    ensures { Filled lanes (length at.now) (λ k. octet (inverses n (get_or at.now k 0))) result }
{
    let mut x = [0u8; LANES];
    for (k, p) in at.iter().enumerate() {
        x[k] = powers.at(ORDER + 1 - n + *p as usize);
    }
    x
}

// Adds y to the word, at the places that are listed, rising; at most 16.
fn add(w: &mut [u8], at: &[u8], y: [u8; LANES])
    requires few { length at.now ≤ lanes }
    requires inside { (i : ℕ) → i < length at.now → get_or at.now i 0 < length w.old }
    requires rises { (h i : ℕ) → h < i → i < length at.now → get_or at.now h 0 < get_or at.now i 0 }
    ensures { Added (length at.now) at.now y w.old w.new }
{
    for (k, p) in at.iter().enumerate() {
        let p = *p as usize;
        w[p] = field::sum(w[p], y[k]);
    }
}

// Adds the error value to the word of n octets at each of the places that are listed, rising.
pub(crate) fn correct(
    w: &mut [u8],
    n: usize,
    at: &[u8],
    o: &[u8; 256],
    d: &[u8; 64],
    powers: &Powers,
)
    requires few { (n ≤ longest_word) × (n ≤ length w.old) × (length at.now < 128) }
    requires inside { (j : ℕ) → j < length at.now → get_or at.now j 0 < n }
    requires rises { (i j : ℕ) → i < j → j < length at.now → get_or at.now i 0 < get_or at.now j 0 }
    ensures { Corrected n (length at.now) (length at.now) at.now o.now d.now w.old w.new }
{
    let l = at.len();
    for j in (0..l).step_by(LANES) {
        let some = &at[j..l.min(j + LANES)];
        let x = points(some, n, powers);
        add(w, some, errors(o, d, l, x));
    }
}
