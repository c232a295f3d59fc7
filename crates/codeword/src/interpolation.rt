// The remainder of x^m u by the generator, m = 2e, for a small e: the one polynomial of degree below m that has the values of x^m u at the
// generator's roots x_k, which are its syndromes s_k. With G_k the generator without its factor x - x_k, it is after Lagrange
//
//     s_0 G_0(x) / G_0(x_0) + s_1 G_1(x) / G_1(x_1) + ..
//
// and G_k(x_k) is the generator's derivative at x_k, which by its odd coefficients is a value at the square of x_k. Lanes are roots.
ghost use Rattle.std.specs.Prelude.{◌+◌, ◌*◌, ◌≤◌, length, get_or};
ghost use Rattle.codeword.specs.Element.{element};
ghost use Rattle.codeword.specs.CodeWord.{longest_word};
ghost use Rattle.codeword.specs.Lanes.{lanes};
ghost use Rattle.codeword.specs.Register.{RemainderIs};
ghost use Rattle.codeword.specs.Interpolation.{ElementLanes, divisor, PartsAdded, Interpolates};

use crate::generator::{FIRST, Generator};
use crate::lanes::LANES;
use crate::powers::Powers;
use crate::{LONGEST_WORD, lanes, padded, syndromes};

// The derivative's values at x.
fn divisors(g: &Generator, x: [u8; LANES]) -> [u8; LANES]
    ensures { ElementLanes (λ k. divisor g.now.e (element (get_or x k 0))) result }
{
    let y = lanes::products(x, x);
    let mut d = [0u8; LANES];
    for h in 0..g.e {
        let next = lanes::horner(y, d, g.row[FIRST + 1 + 2 * h]);
        d = next;
    }
    d
}

// Adds to p the generator without its factor x - x_k, taken w_k times, for all lanes; the quotients by synthetic division.
fn add(p: &mut [u8; LONGEST_WORD], g: &Generator, x: [u8; LANES], w: [u8; LANES])
    ensures { PartsAdded (2 * g.now.e) (2 * g.now.e) x w p.old p.new }
{
    let mut a = [0u8; LANES];
    for i in 0..2 * g.e {
        let next = lanes::horner(x, a, g.row[FIRST + i]);
        a = next;
        p[i] = field::sum(p[i], lanes::dot(w, next));
    }
}

// The 16 parts of the sum from o on.
fn interpolate(
    p: &mut [u8; LONGEST_WORD],
    s: &[u8; LONGEST_WORD],
    o: usize,
    g: &Generator,
    powers: &Powers,
)
    requires { (o + lanes ≤ longest_word) × Interpolates g.now.e o s.now p.old }
    ensures { Interpolates g.now.e (o + lanes) s.now p.new }
{
    let x = powers.along(o + 1);
    let d = divisors(g, x);
    let v = lanes::load(s, o);
    let w = lanes::quotients(v, d);
    add(p, g, x, w);
}

// The remainder, highest coefficient first; zero where unused.
pub(crate) fn remainder(message: &[u8], g: &Generator, powers: &Powers) -> [u8; LONGEST_WORD]
    requires { (length message.now + 2 * g.now.e ≤ longest_word) × (2 * g.now.e + lanes ≤ longest_word) }
    ensures { RemainderIs (2 * g.now.e) message.now result }
{
    let m = 2 * g.e;
    let w = padded(message);
    let s = syndromes::syndromes(&w[..message.len() + m], m, powers);
    let mut p = [0u8; LONGEST_WORD];
    for o in (0..m).step_by(LANES) {
        interpolate(&mut p, &s, o, g, powers);
    }
    p
}
