// The generator (x - α) .. (x - α^m), m = 2e, in lanes. With its coefficients g_0, .., g_m, the highest first,
//
//     g_j = g_(j-1) (α^(m+1) + α^j) / (1 + α^j)    and    g_(e+d) = g_(e-d) α^((m+1) d).
//
// So the ratios of the upper half are made, each by a division; they are multiplied up in rounds, each over twice the distance; and the lower
// half is what the upper one gives. All of it in one array, behind 128 ones, into which each round looks back from its first octets.
ghost use Rattle.std.specs.Prelude.{◌≡◌, suc, ◌+◌, ◌-◌, ◌*◌, ◌≤◌, ◌<◌, get_or};
ghost use Rattle.field.specs.Octet;
ghost use Rattle.codeword.specs.CodeWord.{longest_word};
ghost use Rattle.codeword.specs.Lanes.{Lanes};
ghost use Rattle.codeword.specs.Register.{GeneratorIs, GeneratorIs-prop, ones, room};
ghost use Rattle.codeword.specs.Generator.{Upper, Doubled, Half};

use crate::lanes;
use crate::lanes::LANES;
use crate::powers::Powers;
use field::ORDER;
use std::array;

// The octets of the array in which the coefficients are made, and the place of the highest.
const ROOM: usize = 400;

pub(crate) const FIRST: usize = 128;

// That array, with all coefficients, and zeros behind; and e.
#[derive(Drop)]
pub(crate) struct Generator {
    pub(crate) row: [u8; ROOM],
    pub(crate) e: usize,
    ghost few: { 2 * e < longest_word },
    ghost made: { GeneratorIs (2 * e) row } by { GeneratorIs-prop (2 * e) row },
}

// The ratio of each coefficient of the upper half to the one before it.
fn ratios(p: &mut [u8; ROOM], powers: &Powers, e: usize)
    requires { (2 * e < longest_word) × Upper e 1 (suc ones) p.old }
    ensures { Upper e 1 (suc ones + e) p.new }
{
    let last = powers.at(2 * e + 1);
    for o in (0..e).step_by(LANES) {
        let x = powers.along(o + 1);
        lanes::store(
            p,
            FIRST + 1 + o,
            lanes::quotients(lanes::plus(x, last), lanes::plus(x, 1)),
        );
    }
}

// Each octet of the upper half times the one s places before; from the top, since a block is still wanted by those above it.
fn double_up(p: &mut [u8; ROOM], s: usize, e: usize)
    requires { (2 * e < longest_word) × (s ≤ ones) }
    ensures { Doubled s (suc ones) (suc ones + e) p.old p.new }
{
    for b in (0..lanes::blocks(e)).rev() {
        let o = FIRST + 1 + LANES * b;
        let x = lanes::load(p, o);
        let y = lanes::load(p, o - s);
        lanes::store(p, o, lanes::products(x, y));
    }
}

// The upper half from its ratios. No plainer by an iterator: `successors` of the doubled distance, taken while it is below e.
fn multiply_up(p: &mut [u8; ROOM], e: usize)
    requires { (2 * e < longest_word) × Upper e 1 (suc ones + e) p.old }
    ensures { Half (2 * e) (suc ones + e) p.new }
{
    let mut s: usize = 1;
    while s < e {
        double_up(p, s, e);
        s = 2 * s;
    }
}

// α to the c, to the 2c, .., to the 16c.
fn multiples(powers: &Powers, c: usize) -> [u8; LANES]
    requires { c ≤ longest_word }
    ensures { Lanes (λ k. Octet.power (Octet.power Octet.α c) (suc k)) result }
{
    array::from_fn(|k| powers.at(c * (k + 1) % ORDER))
}

// The 16 octets of s from o down.
fn backwards(s: &[u8; ROOM], o: usize) -> [u8; LANES]
    requires { (15 ≤ o) × (o < room) }
    ensures { Lanes (λ k. get_or s.now (o - k) 0) result }
{
    array::from_fn(|k| s[o - k])
}

// The lower half from the upper.
fn mirror(p: &mut [u8; ROOM], powers: &Powers, e: usize)
    requires { (2 * e < longest_word) × Half (2 * e) (suc ones + e) p.old }
    ensures { Half (2 * e) (suc ones + 2 * e) p.new }
{
    let mut c = multiples(powers, 2 * e + 1);
    let far = lanes::splat(powers.at(LANES * (2 * e + 1) % ORDER));
    for o in (0..e).step_by(LANES) {
        let y = backwards(p, FIRST - 1 + e - o);
        lanes::store(p, FIRST + 1 + e + o, lanes::products(c, y));
        let next = lanes::products(far, c);
        c = next;
    }
}

impl Generator {
    pub(crate) fn new(powers: &Powers, e: usize) -> Generator
        requires { 2 * e < longest_word }
        ensures { result.e ≡ e }
    {
        let mut row = [1u8; ROOM];
        ratios(&mut row, powers, e);
        multiply_up(&mut row, e);
        mirror(&mut row, powers, e);
        lanes::store(&mut row, FIRST + 1 + 2 * e, [0u8; LANES]);
        Generator { row, e }
    }
}
