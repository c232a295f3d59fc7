// Form the syndromes: the values of the word's polynomial at α, .., α^m.
//
// At α^i the word's polynomial has the value of the polynomial in x = α^i whose coefficients are the values of the word's columns at
// x^15 (rows.rt). These come round after 17, so that those for i stand in entry (i - 1) mod 17 + 1 of the rows of v; and since the entries
// go on to 32, 16 points in a row take 16 entries in a row.
ghost use Rattle.std.specs.Prelude.{◌≡◌, ◌+◌, ◌≤◌, length};
ghost use Rattle.codeword.specs.CodeWord.{longest_word};
ghost use Rattle.codeword.specs.Lanes.{lanes, along, Reached};
ghost use Rattle.codeword.specs.Rows.{Evaluated};
ghost use Rattle.codeword.specs.Syndromes.{SyndromesAre, all_zero};

use crate::lanes::LANES;
use crate::powers::Powers;
use crate::rows::{COLUMNS, ENTRIES, VALUES};
use crate::{LONGEST_WORD, lanes, padded, rows};

// The values at α^k, α^(k + 1), .. of the polynomials whose coefficients stand in the rows of v, from entry o on.
fn join(v: &[u8; VALUES], o: usize, k: usize, powers: &Powers) -> [u8; LANES]
    requires { Reached k × (o + lanes ≤ 48) }
    ensures { Evaluated 15 (along k) v.now 48 o result }
{
    let mut a = lanes::load(v, ENTRIES * (COLUMNS - 1) + o);
    for q in (0..COLUMNS - 1).rev() {
        let next = powers.ahead(a, k, lanes::load(v, ENTRIES * q + o));
        a = next;
    }
    a
}

// The same at α^k, .. with the entries from o on, and at α^(k + 16), .. with those from u on: two chains of turns, of which neither waits for
// the other. By two calls of `join` a clean word at e = 127 took 1.43 microseconds in place of 1.26.
fn join_two(
    v: &[u8; VALUES],
    o: usize,
    u: usize,
    k: usize,
    powers: &Powers,
) -> ([u8; LANES], [u8; LANES])
    requires { Reached (k + lanes) × (o + lanes ≤ 48) × (u + lanes ≤ 48) }
    ensures { Evaluated 15 (along k) v.now 48 o result.0 × Evaluated 15 (along (k + 16)) v.now 48 u result.1 }
{
    let mut low = lanes::load(v, ENTRIES * (COLUMNS - 1) + o);
    let mut high = lanes::load(v, ENTRIES * (COLUMNS - 1) + u);
    for q in (0..COLUMNS - 1).rev() {
        let a = powers.ahead(low, k, lanes::load(v, ENTRIES * q + o));
        low = a;
        let b = powers.ahead(high, k + LANES, lanes::load(v, ENTRIES * q + u));
        high = b;
    }
    (low, high)
}

// The m syndromes of a word; zero where unused.
pub(crate) fn syndromes(word: &[u8], m: usize, powers: &Powers) -> [u8; LONGEST_WORD]
    requires { (m ≤ longest_word) × (length word.now ≤ longest_word) }
    ensures { SyndromesAre m word.now result }
{
    let v = rows::values(word, m, powers);
    if m <= LANES {
        return padded(&join(&v, 1, 1, powers)[..m]);
    }
    let mut s = [0u8; 256];
    for from in (0..m).step_by(2 * LANES) {
        let (low, high) = join_two(&v, from % 17 + 1, (from + LANES) % 17 + 1, from + 1, powers);
        octets::write(&mut s, from, &low);
        octets::write(&mut s, from + LANES, &high);
    }
    padded(&s[..m])
}

// Whether the first m octets are zero: the word is a code word. All are looked at, so that the loop has no test, and goes 16 at a time.
pub(crate) fn clean(s: &[u8; LONGEST_WORD], m: usize) -> bool
    requires { m ≤ longest_word }
    ensures { result ≡ all_zero m s.now }
{
    let mut any = 0;
    for x in &s[..m] {
        any |= *x;
    }
    any == 0
}
