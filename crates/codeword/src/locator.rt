// Find the error locator: the algorithm of Berlekamp and Massey, for the shortest recurrence that the syndromes s obey.
//
// Beside the recurrence c, and the one from before its length last grew, b, their products with the syndromes are kept, d = c s and t = b s. So
// the discrepancy at r is there to be read, d[r], and once all syndromes are taken in, the first coefficients of d are the error evaluator.
// Where the textbook adds x^shift b times d[r] over what b failed by to c, here what b failed by times c is taken instead, and d[r] times
// x^shift b is added: no division, and c comes out as the locator times a constant that is not zero. Such a constant changes no root, and
// in Forney's quotient it cancels.
//
// A length that passes e never comes back, so the loop ends there: c and b have at most 128 coefficients, and d and t, for at most 254 syndromes,
// 256, since 16 are taken at a time. c and d stand in one array, b and t in another and just as far apart, so that one pass mends both. b and t
// stand behind 256 zeros each: shifting them is reading further down.
//
//     z                 c: 128    unused: 256    d: 256
//     v    zeros: 256   b: 128    zeros: 256     t: 256
ghost use Rattle.std.specs.Prelude.{◌≡◌, ◌+◌, ◌*◌, ◌<◌, ◌≤◌, length, get_or};
ghost use Rattle.field.specs.Octet;
ghost use Rattle.codeword.specs.CodeWord.{longest_word};
ghost use Rattle.codeword.specs.Lanes.{lanes, Lanes};
ghost use Rattle.codeword.specs.Locator.{margin, room, block_at, Saved, Mended, Kept, Stepped, LocatorIs, EvaluatorIs};

use crate::lanes::LANES;
use crate::{LONGEST_WORD, lanes, padded};
use std::array;

// How many zeros b and t stand behind.
const MARGIN: usize = 256;

// Where d begins.
const SECOND: usize = 384;

// The octets of z; v has the zeros in front besides.
const ROOM: usize = 640;

// What the loop keeps: c and d in z, and b and t in v; the length of c, how far b is to be shifted, and what b failed by.
#[derive(Drop)]
struct State {
    z: [u8; ROOM],
    v: [u8; MARGIN + ROOM],
    long: usize,
    shift: usize,
    failed: u8,
}

// The shortest recurrence for the syndromes times an octet that is not zero, from the coefficient of 1 on, zero where unused; its product with the
// syndromes, of which the first coefficients are the error evaluator; and its length. Where that is above e, only that none is shorter:
// `LocatorIs` says both of one length, so this is no Option.
#[derive(Clone, Copy)]
pub struct Recurrence {
    pub coefficients: [u8; LONGEST_WORD],
    pub evaluator: [u8; 256],
    pub degree: usize,
}

// a x + q y, for 16 coefficients.
fn mix(x: [u8; LANES], y: [u8; LANES], a: u8, q: u8) -> [u8; LANES]
    ensures { Lanes (λ k. Octet.sum (Octet.product a (get_or x k 0)) (Octet.product q (get_or y k 0))) result }
{
    array::from_fn(|k| field::sum(field::product(a, x[k]), field::product(q, y[k])))
}

// Where the length grows, x is written over the 16 octets of v from o on.
fn keep(v: &mut [u8], o: usize, x: [u8; LANES], grows: bool)
    requires { o + lanes ≤ length v.old }
    ensures { Saved grows o x v.old v.new }
{
    if grows {
        lanes::store(v, o, x);
    }
}

// Where block i stands: the first `low` blocks are c's, the others d's.
fn block_at(low: usize, i: usize) -> usize
    requires { (low ≤ 8) × (i < low + 16) }
    ensures at { result ≡ block_at low i }
    ensures fits { result + lanes ≤ room }
{
    if i < low {
        return LANES * i;
    }
    SECOND + LANES * (i - low)
}

impl State {
    // c becomes a c + q x^shift b, where a is what b failed by, and d a d + q x^shift t, as far as `low` and `high` blocks of 16 coefficients go;
    // and where the length grows, b and t become the c and d from before. From the top: a block of b is still wanted by the ones above it.
    fn mend(&mut self, low: usize, high: usize, q: u8, grows: bool)
        requires { (0 < low) × (low ≤ 8) × (high ≤ 16) × (self.old.shift ≤ margin) }
        ensures mended { Mended low high 0 self.old.shift self.old.failed q self.old.z self.old.v self.new.z }
        ensures kept { Kept grows low high 0 self.old.z self.old.v self.new.v }
        ensures rest { (self.new.long ≡ self.old.long) × (self.new.shift ≡ self.old.shift) × (self.new.failed ≡ self.old.failed) }
    {
        // read once: after a store into z or v they would be read again
        let shift = self.shift;
        let a = self.failed;
        for i in (0..low + high).rev() {
            let o = block_at(low, i);
            let x = lanes::load(&self.z, o);
            let y = lanes::load(&self.v, MARGIN + o - shift);
            keep(&mut self.v, MARGIN + o, x, grows);
            lanes::store(&mut self.z, o, mix(x, y, a, q));
        }
    }

    // One step: the recurrence is made to hold at r too. Where its length would be above e, only that length is told.
    fn step(&mut self, r: usize, e: usize)
        requires { (r < 2 * e) × (2 * e < longest_word) × (self.old.long ≤ e) × (self.old.long ≤ r) × (self.old.shift ≤ r + 1) }
        ensures { Stepped e r self.old.z self.old.v self.old.long self.old.shift self.old.failed
            self.new.z self.new.v self.new.long self.new.shift self.new.failed }
    {
        let blocks = lanes::blocks(2 * e);
        // what the recurrence fails by: the coefficient of its product d with the syndromes
        let x = self.z[SECOND + r];
        if x == 0 {
            self.shift += 1;
            return;
        }
        if r < 2 * self.long {
            self.mend(self.long / LANES + 1, blocks, x, false);
            self.shift += 1;
            return;
        }
        let long = r + 1 - self.long;
        if e < long {
            self.long = long;
            return;
        }
        self.mend(long / LANES + 1, blocks, x, true);
        self.long = long;
        self.shift = 1;
        self.failed = x;
    }
}

// The shortest recurrence for the first 2e syndromes; where that is longer than e, a length above e that none of them is shorter than.
pub(crate) fn locator(s: &[u8; LONGEST_WORD], e: usize) -> Recurrence
    requires { 2 * e < longest_word }
    ensures { LocatorIs (2 * e) s.now result.coefficients result.degree
        × EvaluatorIs (2 * e) s.now result.coefficients result.evaluator result.degree }
{
    let mut state = State {
        z: [0u8; ROOM],
        v: [0u8; MARGIN + ROOM],
        long: 0,
        shift: 1,
        failed: 1,
    };
    octets::write(&mut state.z, SECOND, s);
    state.z[0] = 1;
    octets::write(&mut state.v, MARGIN + SECOND, s);
    state.v[MARGIN] = 1;
    for r in 0..2 * e {
        state.step(r, e);
        if e < state.long {
            break;
        }
    }
    let coefficients = padded(&state.z[..128]);
    let mut evaluator = [0u8; 256];
    octets::write(&mut evaluator, 0, &state.z[SECOND..ROOM]);
    Recurrence {
        coefficients,
        evaluator,
        degree: state.long,
    }
}
