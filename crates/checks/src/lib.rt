// The checks of 8 and 16 bits (000, 7.3.3.2.3 and 7.4.3.2.3). The definitions are in specs/Check.antt.
//
// A content of 16 to 1,024 octets is folded first. The generator at x^8 is the generator to the 8th power, since in characteristic 2 a square is the sum of the
// squares: so the remainder by the generator stays where the content is divided by that, whose coefficients are octets. They are 0 and 1,
// and an octet that goes is only added to three octets behind it: 16 - 12, 16 - 5 and 16 octets on, or 8 - 2, 8 - 1 and 8. The next octet
// does not wait for that, as each would in the register.
//
// Then a register of the remainder, its highest coefficient in bit 1 of the first octet, takes the octets that are left. The octet that
// comes is added to the first octet of the register; the remainder of that sum is added to the register's other octets, which move up.
#![tactic(auto)]

mod rules; // rules.rt: what tells one check from another
pub mod seals; // seals.rt: a check behind its octets
mod terms; // terms.rt: where a generator has its terms

ghost use Rattle.std.specs.Prelude.{◌≡◌, ◌++◌, ◌+◌, ◌-◌, ◌≤◌, ◌<◌, length, take, drop, replicate};
ghost use Rattle.codeword.specs.CodeWord.{Octets};
ghost use Rattle.checks.specs.Check.{Kind, check_of};
ghost use Rattle.checks.specs.Steps.{held, left, turned, xors, Folds};
ghost use Rattle.checks.specs.Width.{kind_of, width_of};

use rules::{Eight, Rule, Sixteen};
use terms::Terms;

// The most octets that are folded: as many as the longest unit of AL1 and AL2 has.
const LONGEST: usize = 1024;

// How many octets a fold leaves.
const FOLDED: usize = 16;

// The width of a check: 0 bits are no check.
#[derive(Clone, Copy, Debug, PartialEq, Eq)]
pub enum Width {
    Zero,
    Eight,
    Sixteen,
}

// The width of n bits, where there is one.
#[tactic(auto, unfolding(crate::specs::Width::width_of))]
pub fn width_of(n: u32) -> Option<Width>
    ensures { result ≡ width_of n }
{
    match n {
        0 => Some(Width::Zero),
        8 => Some(Width::Eight),
        16 => Some(Width::Sixteen),
        _ => None,
    }
}

// How many octets a check has.
#[tactic(auto, unfolding(crate::specs::Check::none, crate::specs::Check::eight, crate::specs::Check::sixteen))]
pub fn octets_of(width: Width) -> usize
    ensures { result ≡ (kind_of width).octets }
{
    match width {
        Width::Zero => 0,
        Width::Eight => 1,
        Width::Sixteen => 2,
    }
}

// Adds the octets to the first of these.
fn add(to: &mut [u8], octets: &[u8])
    requires { length octets.now ≤ length to.old }
    ensures { to.new ≡ xors to.old octets.now }
{
    for k in 0..octets.len() {
        to[k] ^= octets[k];
    }
}

// What the register holds once it has taken one octet more: the others move up.
fn turn<const N: usize, R: Rule<N>>(register: [u8; N], octet: u8) -> [u8; N]
    requires { 0 < N }
    ensures { result ≡ turned R.kind register.entry octet }
{
    let mut next = R::remainder(register[0] ^ octet);
    let others = register.as_slice();
    add(&mut next, &others[1..]);
    next
}

// What the register holds once it has taken the content, octet by octet.
fn take<const N: usize, R: Rule<N>>(content: &[u8], start: [u8; N]) -> [u8; N]
    requires { (0 < N) × (R.kind.octets ≡ N) }
    ensures { result ≡ held R.kind start.entry content.now }
{
    let mut register = start;
    for octet in content {
        register = turn::<N, R>(register, *octet);
    }
    register
}

// The content at the front of an array of octets, with the start added to its first octets.
fn laid<const N: usize>(content: &[u8], start: [u8; N]) -> [u8; LONGEST]
    requires { (N ≤ length content.now) × (length content.now ≤ 1024) }
    ensures { take (length content.now) result ≡ xors content.now start.entry }
{
    let mut w = [0u8; LONGEST];
    octets::write(&mut w, 0, content);
    add(&mut w, &start);
    w
}

// The same, folded by a generator with these terms: its last sixteen octets leave what it left.
fn folded<const N: usize>(content: &[u8], start: [u8; N], terms: Terms) -> [u8; LONGEST]
    requires { (16 ≤ length content.now) × (length content.now ≤ 1024) × (N ≤ 16) }
    ensures { (κ : Kind) → Folds κ terms.near terms.middle terms.far
        → left κ (take 16 (drop (length content.now - 16) result)) ≡ left κ (xors content.now start.entry) }
{
    let mut w = laid(content, start);
    for i in 0..content.len() - FOLDED {
        let a = w[i];
        w[i + terms.near] ^= a;
        w[i + terms.middle] ^= a;
        w[i + terms.far] ^= a;
    }
    w
}

// What the register holds once it has taken the content, which is folded before where it may be.
fn divide<const N: usize, R: Rule<N>>(content: &[u8], start: [u8; N]) -> [u8; N]
    requires { (0 < N) × (N ≤ 16) × (R.kind.octets ≡ N) }
    ensures { result ≡ held R.kind start.entry content.now }
{
    let n = content.len();
    if n < FOLDED || LONGEST < n {
        return take::<N, R>(content, start);
    }
    let w = folded(content, start, R::terms());
    take::<N, R>(&w[n - FOLDED..n], [0; N])
}

// The check by a rule: what the register holds in the end, less what it started with.
fn check_by<const N: usize, R: Rule<N>>(content: &[u8]) -> [u8; N]
    requires { (0 < N) × (N ≤ 16) × (R.kind.octets ≡ N) }
    ensures { result ≡ check_of R.kind content.now }
{
    let start = [R::ones(); N];
    let mut held = divide::<N, R>(content, start);
    add(&mut held, &start);
    held
}

// The check of a width: its octets, and zeros behind them.
pub fn check(content: &[u8], width: Width) -> [u8; 2]
    ensures { result ≡ check_of (kind_of width) content.now ++ replicate (2 - (kind_of width).octets) 0 }
{
    match width {
        Width::Zero => [0, 0],
        Width::Eight => {
            let [octet] = check_by::<1, Eight>(content);
            [octet, 0]
        }
        Width::Sixteen => check_by::<2, Sixteen>(content),
    }
}
