// 16 octets side by side, the lanes. What is done to each has no test, and works on arrays of 16 by value: the compiler makes one vector
// operation of it for all lanes, and keeps such an array in a register.
ghost use Rattle.std.specs.Prelude.{◌+◌, ◌*◌, ◌≤◌, ◌<◌, length, get_or};
ghost use Rattle.field.specs.Octet;
ghost use Rattle.codeword.specs.CodeWord.{longest_word};
ghost use Rattle.codeword.specs.Lanes.{lanes, Lanes, Stored, Summed};

use std::array;

// How many octets stand side by side.
pub(crate) const LANES: usize = 16;

// How many times 16 it takes to go over n.
pub(crate) fn blocks(n: usize) -> usize
    requires { n ≤ longest_word }
    ensures { (n ≤ lanes * result) × (lanes * result < n + lanes) }
{
    n.div_ceil(LANES)
}

// 16 octets of s, from o on.
pub(crate) fn load(s: &[u8], o: usize) -> [u8; LANES]
    requires { o + lanes ≤ length s.now }
    ensures { Lanes (λ k. get_or s.now (o + k) 0) result }
{
    array::from_fn(|k| s[o + k])
}

// Writes a over s, from o on.
pub(crate) fn store(s: &mut [u8], o: usize, a: [u8; LANES])
    requires { o + lanes ≤ length s.old }
    ensures { Stored lanes o a s.old s.new }
{
    for k in 0..LANES {
        s[o + k] = a[k];
    }
}

// One octet in every lane.
pub(crate) fn splat(c: u8) -> [u8; LANES]
    ensures { Lanes (λ k. c) result }
{
    array::from_fn(|_| c)
}

// a + c, one c for all lanes.
pub(crate) fn plus(a: [u8; LANES], c: u8) -> [u8; LANES]
    ensures { Lanes (λ k. Octet.sum (get_or a k 0) c) result }
{
    array::from_fn(|k| field::sum(a[k], c))
}

// a + b.
pub(crate) fn sums(a: [u8; LANES], b: [u8; LANES]) -> [u8; LANES]
    ensures { Lanes (λ k. Octet.sum (get_or a k 0) (get_or b k 0)) result }
{
    array::from_fn(|k| field::sum(a[k], b[k]))
}

// a b.
pub(crate) fn products(a: [u8; LANES], b: [u8; LANES]) -> [u8; LANES]
    ensures { Lanes (λ k. Octet.product (get_or a k 0) (get_or b k 0)) result }
{
    array::from_fn(|k| field::product(a[k], b[k]))
}

// a b + c, one c for all lanes: a step of Horner's rule at the points a. That c is an octet makes octets of the lanes.
pub(crate) fn horner(a: [u8; LANES], b: [u8; LANES], c: u8) -> [u8; LANES]
    ensures { Lanes (λ k. Octet.sum (Octet.product (get_or a k 0) (get_or b k 0)) c) result × (c < Octet.size) }
{
    array::from_fn(|k| field::sum(field::product(a[k], b[k]), c))
}

// f b + c, one f for all lanes.
pub(crate) fn mixed(f: u8, b: [u8; LANES], c: [u8; LANES]) -> [u8; LANES]
    ensures { Lanes (λ k. Octet.sum (Octet.product f (get_or b k 0)) (get_or c k 0)) result }
{
    array::from_fn(|k| field::sum(field::product(f, b[k]), c[k]))
}

// b over a; 0 where a is 0.
pub(crate) fn quotients(b: [u8; LANES], a: [u8; LANES]) -> [u8; LANES]
    ensures { Lanes (λ k. Octet.product (get_or b k 0) (Octet.inverse (get_or a k 0))) result }
{
    array::from_fn(|k| field::product(b[k], field::inverse(a[k])))
}

// The sum of all a b.
pub(crate) fn dot(a: [u8; LANES], b: [u8; LANES]) -> u8
    ensures { Summed lanes a b result }
{
    let mut r = 0;
    for k in 0..LANES {
        r = field::sum(r, field::product(a[k], b[k]));
    }
    r
}
