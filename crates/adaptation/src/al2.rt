// AL2 (000, 7.3): its units are put together, read apart and judged. What a channel keeps of it between two calls is taken and returned.
ghost use Rattle.std.specs.Prelude.{◌≡◌, List, ℕ, length};
ghost use Rattle.calls.specs.Refusal.{ended, says};
ghost use Rattle.adaptation.specs.AL2.{first_numbers, number_as, risen, field_length, sent, apart, unit_of};
ghost use Rattle.adaptation.specs.AL2.{accepting, counting, failing, arrival, settled, received, apart_says, receipt_says, received_says};

use crate::{Badge, LONGEST_UNIT};
use calls::Refusal;
use checks::{Width, seals};

// How far past the number expected a number is accepted, and not misdelivered (house).
const MOST_PAST: u8 = 127;

// The most failed units that are counted (document 02, ticket 5).
const MOST_FAILED: u8 = 127;

// What a receiver keeps of a channel between two units: the number that is expected next, and how many failed units were handed up
// since the last accepted one.
#[derive(Clone, Copy, Debug, PartialEq, Eq)]
pub struct Due {
    pub expected: u8,
    pub failed: u8,
}

// A channel's numbers: the one that is sent next, and what is due.
#[derive(Clone, Copy, Debug, PartialEq, Eq)]
pub struct Numbers {
    pub sent: u8,
    pub due: Due,
}

// What a unit that was read apart shows beside its octets: its number, if it has one (7.3.3.2.1), and whether its check agrees.
#[derive(Clone, Copy, Debug, PartialEq, Eq)]
pub struct Apart {
    pub number: Option<u8>,
    pub agrees: bool,
}

// What becomes of a number that is accepted: so many are missing before it, and that is due next.
#[derive(Clone, Copy, Debug, PartialEq, Eq)]
pub struct Taken {
    pub missing: u8,
    pub due: Due,
}

// A unit that is handed up: its badge, how many are missing before it, and what is due next.
#[derive(Clone, Copy, Debug, PartialEq, Eq)]
pub struct Delivery {
    pub badge: Badge,
    pub missing: u8,
    pub due: Due,
}

// A channel's numbers at first.
pub fn first_numbers() -> Numbers
    ensures { result ≡ first_numbers }
{
    let due = Due {
        expected: 0,
        failed: 0,
    };
    Numbers { sent: 0, due }
}

// The number that a unit is sent with, where units have one.
pub fn number_as(numbered: bool, numbers: Numbers) -> Option<u8>
    ensures { result ≡ number_as numbered numbers }
{
    numbered.then_some(numbers.sent)
}

// The numbers once a unit was sent: the one sent rises modulo 256, if the unit had one.
pub fn rise(numbered: bool, numbers: Numbers) -> Numbers
    ensures { result ≡ risen numbered numbers }
{
    let mut next = numbers;
    if numbered {
        next.sent = numbers.sent.wrapping_add(1);
    }
    next
}

// Puts number, unit and check together at the front of out: refusals 2, 3.
#[tactic(auto, unfolding(checks::specs::Check::eight))]
pub fn send(number: Option<u8>, unit: &[u8], out: &mut [u8]) -> Result<usize, Refusal>
    ensures { ended (says result) out.new ≡ sent number unit.now out.old }
{
    let field = number.as_slice();
    let from = field.len();
    if unit.is_empty() || LONGEST_UNIT - 1 - from < unit.len() {
        return Err(Refusal::BadLength);
    }
    let n = from + unit.len();
    if out.len() <= n {
        return Err(Refusal::NoRoom);
    }
    octets::write(out, 0, field);
    octets::write(out, from, unit);
    seals::seal(out, n, Width::Eight);
    Ok(n + 1)
}

// How many octets the number takes, where units have one or not.
fn field_length(numbered: bool) -> usize
    ensures { result ≡ field_length numbered }
{
    usize::from(numbered)
}

// Reads a received unit apart: refusal 2. Its unit is what `unit` returns.
#[tactic(auto, using(crate::proofs::Deciding::decides), unfolding(crate::specs::AL2::apart, checks::specs::Check::eight))]
pub fn read(whole: &[u8], numbered: bool) -> Result<Apart, Refusal>
    ensures { apart_says result (unit_of numbered whole.now) ≡ apart numbered whole.now }
{
    let n = whole.len();
    if n < field_length(numbered) + 2 || LONGEST_UNIT < n {
        return Err(Refusal::BadLength);
    }
    let number = numbered.then_some(whole[0]);
    let agrees = seals::is_sealed(whole, Width::Eight);
    Ok(Apart { number, agrees })
}

// The unit's part of a received whole, behind the number and before the check; nothing of one that is too short.
pub fn unit(whole: &[u8], numbered: bool) -> &[u8]
    ensures { result.now ≡ unit_of numbered whole.now }
{
    let from = field_length(numbered);
    let n = whole.len();
    if n <= from {
        return &whole[..0];
    }
    let end = n - 1;
    &whole[from..end]
}

// What is due once a number was accepted.
fn accept(number: u8) -> Due
    ensures { result ≡ accepting number }
{
    Due {
        expected: number.wrapping_add(1),
        failed: 0,
    }
}

// What is due once one unit more is counted as failed, up to the most that are.
fn count(due: Due) -> Due
    ensures { result ≡ counting due }
{
    let mut next = due;
    next.failed = due.failed.saturating_add(1).min(MOST_FAILED);
    next
}

// What is due once a unit failed: it is counted, if it has a number.
fn fail(number: Option<u8>, due: Due) -> Due
    ensures { result ≡ failing number due }
{
    match number {
        Some(_) => count(due),
        None => due,
    }
}

// What becomes of a number, by what is due: none of a misdelivered one.
#[tactic(auto, using(crate::proofs::Deciding::decides), unfolding(crate::specs::AL2::arrival))]
pub fn arrive(number: u8, due: Due) -> Option<Taken>
    ensures { result ≡ arrival number due }
{
    let past = number.wrapping_sub(due.expected);
    if MOST_PAST < past {
        return None;
    }
    let missing = past.saturating_sub(due.failed);
    let next = accept(number);
    Some(Taken { missing, due: next })
}

// The check is looked at first, then the number, if there is one: a unit is handed up, or discarded as misdelivered, and what was due stays.
fn settle(number: Option<u8>, agrees: bool, due: Due) -> Option<Delivery>
    ensures { (u : List ℕ) → receipt_says result u due ≡ settled number agrees u due }
{
    if !agrees {
        return Some(Delivery {
            badge: Badge::CheckFailed,
            missing: 0,
            due: fail(number, due),
        });
    }
    let taken = match number {
        Some(n) => arrive(n, due)?,
        None => Taken { missing: 0, due },
    };
    Some(Delivery {
        badge: Badge::Clean,
        missing: taken.missing,
        due: taken.due,
    })
}

// Receives a unit, by what is due: refusal 2. It is handed up, and is what `unit` returns; or it is discarded as misdelivered, and what was
// due stays.
#[tactic(auto, using(crate::proofs::Wholes::received_apart))]
pub fn receive(whole: &[u8], numbered: bool, due: Due) -> Result<Option<Delivery>, Refusal>
    ensures { received_says result (unit_of numbered whole.now) due ≡ received numbered whole.now due }
{
    let parts = read(whole, numbered)?;
    Ok(settle(parts.number, parts.agrees, due))
}
