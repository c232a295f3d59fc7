// The parity: the remainder of x^m times the message by the generator, m = 2e. For a small e by interpolation, for a larger one by the shift
// register of figure D.3/H.223. The register divides in place: the octet that is next in the message, with what has been taken off it, is the
// feedback, and the feedback times the generator is taken off the octets behind it, 16 at a time.
ghost use Rattle.std.specs.Prelude.{◌+◌, ◌*◌, ◌≤◌, ◌<◌, length};
ghost use Rattle.codeword.specs.CodeWord.{longest_word};
ghost use Rattle.codeword.specs.Register.{RemainderIs, Lowered};

use crate::generator::{FIRST, Generator};
use crate::lanes::LANES;
use crate::powers::Powers;
use crate::{LONGEST_WORD, interpolation, lanes, padded};

// The octets of the register's array: those of two words and more, since a turn writes 16 at a time.
const WIDTH: usize = 528;

// The largest e for which the interpolation takes less time than the register.
const INTERPOLATED: usize = 16;

// One turn of the register, at octet i.
fn turn(w: &mut [u8; WIDTH], i: usize, g: &Generator)
    requires { i < longest_word }
    ensures { Lowered (2 * g.now.e) i g.now.row w.old w.new }
{
    let feedback = w[i];
    for o in (0..2 * g.e).step_by(LANES) {
        let x = lanes::load(w, i + 1 + o);
        let y = lanes::load(&g.row, FIRST + 1 + o);
        lanes::store(w, i + 1 + o, lanes::mixed(feedback, y, x));
    }
}

// The remainder, highest coefficient first; zero where unused.
fn divide(message: &[u8], g: &Generator) -> [u8; LONGEST_WORD]
    requires { length message.now + 2 * g.now.e ≤ longest_word }
    ensures { RemainderIs (2 * g.now.e) message.now result }
{
    let mut w = [0u8; WIDTH];
    octets::write(&mut w, 0, message);
    let k = message.len();
    for i in 0..k {
        turn(&mut w, i, g);
    }
    padded(&w[k..k + 2 * g.e])
}

// The remainder of x^2e times the message, highest coefficient first; zero where unused.
pub(crate) fn parity(message: &[u8], e: usize) -> [u8; LONGEST_WORD]
    requires { length message.now + 2 * e ≤ longest_word }
    ensures { RemainderIs (2 * e) message.now result }
{
    let powers = Powers::new();
    let g = Generator::new(&powers, e);
    if e <= INTERPOLATED {
        return interpolation::remainder(message, &g, &powers);
    }
    divide(message, &g)
}
