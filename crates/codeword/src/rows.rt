// The values of the word's columns, on the way to its syndromes.
//
// The word, with zeros in front to 255 octets, is 17 rows of 15. With R_q for column q, which has the coefficients of x^q, x^(15 + q), ..,
// the word's polynomial is the sum of x^q R_q(x^15) over the 15 columns. At x = α^i, x^15 is α^(15 r) for r = i mod 17, since α^255 = 1:
// 17 values of each column serve all i.
//
// For r from 1 to 16, y = α^(15 r) is a root of y^8 + y^7 + y^6 + y^4 + y^2 + y + 1 or of y^8 + y^5 + y^4 + y^3 + 1. So y^8 is a sum of
// lower powers, the taps: row d can be added to the rows that stand for y^(d - 8) times these, and be dropped; no column's value at y
// changes, and 17 rows become 8.
ghost use Rattle.std.specs.Prelude.{◌≡◌, ℕ, ◌+◌, ◌-◌, ◌*◌, ◌≤◌, ◌<◌, length, get_or};
ghost use Rattle.codeword.specs.CodeWord.{longest_word};
ghost use Rattle.codeword.specs.Lanes.{lanes};
ghost use Rattle.codeword.specs.Rows.{RowAdded, Evaluated, RowsAre, Folded, Spread, Filling, Repeated, ColumnsAre};

use crate::lanes::LANES;
use crate::powers::Powers;
use crate::{LONGEST_WORD, lanes};

// How many rows there are.
const ROWS: usize = 17;

// The octets of an array of rows: 16 each, of which 15 count.
const ROOM: usize = ROWS * LANES;

// How many columns there are.
pub(crate) const COLUMNS: usize = 15;

// For each of the columns a row of entries: its values, of which 32 are used.
pub(crate) const ENTRIES: usize = 48;

// The octets of the array of these.
pub(crate) const VALUES: usize = COLUMNS * ENTRIES;

// Row d: the octets of the word that stand for x^(15 d + 14), .., x^(15 d).
fn lay(w: &[u8; 256]) -> [u8; ROOM]
    ensures { (d i : ℕ) → d < 17 → i < lanes → get_or result (16 * d + i) 0 ≡ get_or w.now (15 * (16 - d) + i) 0 }
{
    let mut f = [0u8; ROOM];
    for d in 0..ROWS {
        let row = lanes::load(w, COLUMNS * (ROWS - 1 - d));
        octets::write(&mut f, LANES * d, &row);
    }
    f
}

// Adds a to 16 octets of f from o on.
fn add(f: &mut [u8; ROOM], o: usize, a: [u8; LANES])
    requires { o + lanes ≤ 272 }
    ensures { RowAdded lanes o a f.old f.new }
{
    for i in 0..LANES {
        f[o + i] = field::sum(f[o + i], a[i]);
    }
}

// 8 rows that are worth as much as 17 where y^8 is the sum of the powers of y that the taps name. It is inlined, so that it knows the taps by
// their numbers: a clean word at e = 0 takes 1,954 instructions in place of 2,477.
#[inline(always)]
fn fold(rows: [u8; ROOM], taps: &[usize]) -> [u8; ROOM]
    requires { (j : ℕ) → j < length taps.now → get_or taps.now j 0 < 8 }
    ensures { Folded 8 taps.now rows result }
{
    let mut f = rows;
    for d in (8..ROWS).rev() {
        let a = lanes::load(&f, LANES * d);
        for tap in taps {
            add(&mut f, LANES * (d - 8 + *tap), a);
        }
    }
    f
}

// The values at y of 16 columns of n rows, by Horner's rule.
fn columns_at(f: &[u8; ROOM], n: usize, y: u8) -> [u8; LANES]
    requires { (0 < n) × (n ≤ 17) }
    ensures { Evaluated n (λ _. y) f.now 16 0 result }
{
    let mut a = lanes::load(f, LANES * (n - 1));
    for d in (0..n - 1).rev() {
        let next = lanes::mixed(y, a, lanes::load(f, LANES * d));
        a = next;
    }
    a
}

// Lane i of a becomes entry r of row 14 - i.
fn spread(a: [u8; LANES], r: usize, v: &mut [u8; VALUES])
    requires { r < 48 }
    ensures { Spread 15 r a v.old v.new }
{
    for i in 0..COLUMNS {
        v[ENTRIES * (COLUMNS - 1 - i) + r] = a[i];
    }
}

// The columns' values at α^(15 r) are filled in, where r is up to m.
fn fill(f: &[u8; ROOM], n: usize, r: usize, m: usize, powers: &Powers, v: &mut [u8; VALUES])
    requires { (0 < n) × (n ≤ 17) × (r < 34) }
    ensures { Filling n f.now 1 (λ _. r) m v.old v.new }
{
    if r <= m {
        spread(columns_at(f, n, powers.at(COLUMNS * r)), r, v);
    }
}

// The same for each of the roots.
fn fill_all(
    f: &[u8; ROOM],
    n: usize,
    roots: &[usize],
    m: usize,
    powers: &Powers,
    v: &mut [u8; VALUES],
)
    requires { (0 < n) × (n ≤ 17) × ((j : ℕ) → j < length roots.now → get_or roots.now j 0 < 34) }
    ensures { Filling n f.now (length roots.now) (λ j. get_or roots.now j 0) m v.old v.new }
{
    for r in roots {
        fill(f, n, *r, m, powers, v);
    }
}

// Entries 1 to 16 of each row are repeated from entry 18 on: α^(15 r) comes round after 17.
fn repeat(v: &mut [u8; VALUES])
    ensures { Repeated 15 v.old v.new }
{
    for q in 0..COLUMNS {
        let a = lanes::load(v, ENTRIES * q + 1);
        octets::write(v, ENTRIES * q + 18, &a);
    }
}

// The rows of a word.
fn rows_of(word: &[u8]) -> [u8; ROOM]
    requires { length word.now ≤ longest_word }
    ensures { RowsAre word.now result }
{
    let mut w = [0u8; 256];
    octets::write(&mut w, LONGEST_WORD - word.len(), word);
    lay(&w)
}

// The values of the word's columns at α^15, α^30, .., as far as m syndromes ask for them. The other polynomial's roots begin with
// r = 3; at r = 17, y is 1, and from there on the values come round.
pub(crate) fn values(word: &[u8], m: usize, powers: &Powers) -> [u8; VALUES]
    requires { length word.now ≤ longest_word }
    ensures { ColumnsAre m word.now result }
{
    let rows = rows_of(word);
    let mut v = [0u8; VALUES];
    let f = fold(rows, &[0, 1, 2, 4, 6, 7]);
    fill_all(&f, 8, &[1, 2, 4, 8, 9, 13, 15, 16], m, powers, &mut v);
    if 2 < m {
        let g = fold(rows, &[0, 3, 4, 5]);
        fill_all(&g, 8, &[3, 5, 6, 7, 10, 11, 12, 14], m, powers, &mut v);
    }
    if 16 < m {
        fill_all(&rows, ROWS, &[17], m, powers, &mut v);
        repeat(&mut v);
    }
    v
}
