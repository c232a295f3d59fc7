// AL1M (003, Annex D): a unit with its check and the code's parity behind it.
ghost use Rattle.std.specs.Prelude.{◌≡◌, Some, ◌+◌, ◌*◌, ◌≤◌, ◌<◌, length};
ghost use Rattle.codeword.specs.CodeWord.{longest_word};
ghost use Rattle.calls.specs.Refusal.{says};
ghost use Rattle.checks.specs.Width.{kind_of};
ghost use Rattle.adaptation.specs.AL1M.{sent_length};
ghost use Rattle.adaptation.specs.Sending.{SentIs, Sends};
ghost use Rattle.adaptation.specs.Receiving.{badge_of, is_bare, handed_unit, HandedIs, Receives};

use crate::Badge;
use crate::setting::Setting;
use calls::Refusal;
use checks::seals;
use codeword::LONGEST_WORD;

// The most octets of a code word that may be repaired (003, D.4.1.7.3).
pub const MOST_REPAIRS: u32 = 127;

// .. and so the longest list of places that a repair needs.
pub const MOST_PLACES: usize = MOST_REPAIRS as usize;

// A unit that is handed up: its badge, how many octets of the word were changed, and its length.
#[derive(Clone, Copy, Debug, PartialEq, Eq)]
pub struct Judgement {
    pub badge: Badge,
    pub changed: usize,
    pub length: usize,
}

// How many octets a unit is sent in, with a check of width bits and a code that repairs e octets: refusals 1, 2.
#[tactic(auto, using(crate::proofs::Deciding::decides), unfolding(crate::specs::AL1M::sent_length, crate::specs::AL1M::is_sendable))]
pub fn sent_length(unit: usize, width: u32, e: u32) -> Result<usize, Refusal>
    ensures { says result ≡ sent_length unit width e }
{
    let behind = Setting::asked(width, e)?.behind();
    if unit == 0 || LONGEST_WORD < unit || LONGEST_WORD < unit + behind {
        return Err(Refusal::BadLength);
    }
    Ok(unit + behind)
}

// Writes the unit, its check and the parity to the front of `sent`.
fn put(unit: &[u8], s: Setting, sent: &mut [u8])
    requires { (0 < length unit.now) × (length unit.now + (kind_of s.width).octets + 2 * s.repairs ≤ longest_word)
        × (length unit.now + (kind_of s.width).octets + 2 * s.repairs ≤ length sent.old) }
    ensures { SentIs (kind_of s.width) s.repairs unit.now sent.old
        (length unit.now + (kind_of s.width).octets + 2 * s.repairs) sent.new }
{
    let t = unit.len();
    let mut message = [0u8; LONGEST_WORD];
    octets::write(&mut message, 0, unit);
    seals::seal(&mut message, t, s.width);
    let k = t + checks::octets_of(s.width);
    codeword::encode(&message[..k], s.repairs, sent);
}

// The unit, its check and the parity into the front of `sent`: refusals 1, 2, 3.
#[tactic(auto, using(crate::proofs::Deciding::decides), unfolding(crate::specs::AL1M::sent_length, crate::specs::AL1M::is_sendable))]
pub fn encode(unit: &[u8], width: u32, e: u32, sent: &mut [u8]) -> Result<usize, Refusal>
    ensures { Sends width e unit.now sent.old result sent.new }
{
    let s = Setting::asked(width, e)?;
    let n = sent_length(unit.len(), width, e)?;
    if sent.len() < n {
        return Err(Refusal::NoRoom);
    }
    put(unit, s, sent);
    Ok(n)
}

// Whether there is neither a check nor a code.
fn is_bare(s: Setting) -> bool
    ensures { result ≡ is_bare (kind_of s.width) s.repairs }
{
    s.repairs == 0 && checks::octets_of(s.width) == 0
}

// The badge of a word of which a code word was found.
fn badge_of(bare: bool, changed: usize, agrees: bool) -> Badge
    ensures { result ≡ badge_of bare (Some changed) agrees }
{
    match (agrees, changed, bare) {
        (false, _, _) => Badge::CheckFailed,
        (true, 0, true) => Badge::Unchecked,
        (true, 0, false) => Badge::Clean,
        (true, _, _) => Badge::Corrected,
    }
}

// Looks for the code word, and judges the unit by it.
fn judge(received: &[u8], s: Setting, repair: &mut [u8], places: &mut [u8]) -> Judgement
    requires { (length received.now ≤ longest_word) × ((kind_of s.width).octets + 2 * s.repairs < length received.now)
        × (length received.now ≤ length repair.old) }
    ensures { HandedIs (kind_of s.width) s.repairs received.now (record { repair = repair.old; places = places.old }) result
        (record { repair = repair.new; places = places.new }) }
{
    let length = received.len() - s.behind();
    let Some(changed) = codeword::repair(received, s.repairs, repair, places) else {
        return Judgement {
            badge: Badge::OutOfReach,
            changed: 0,
            length,
        };
    };
    let k = received.len() - 2 * s.repairs;
    let agrees = seals::is_sealed(octets::front(repair, k), s.width);
    let badge = badge_of(is_bare(s), changed, agrees);
    Judgement {
        badge,
        changed,
        length,
    }
}

// Repairs a received word into the front of `repair`, lists the changed places at the front of `places`, and judges the word: refusals 1,
// 2, 3. The unit that is handed up is what `unit` returns.
#[tactic(auto, using(crate::proofs::Deciding::decides), unfolding(crate::specs::Receiving::is_word))]
pub fn receive(
    received: &[u8],
    width: u32,
    e: u32,
    repair: &mut [u8],
    places: &mut [u8],
) -> Result<Judgement, Refusal>
    ensures { Receives width e received.now (record { repair = repair.old; places = places.old }) result
        (record { repair = repair.new; places = places.new }) }
{
    let n = received.len();
    let s = Setting::asked(width, e)?;
    if LONGEST_WORD < n || n <= s.behind() {
        return Err(Refusal::BadLength);
    }
    if repair.len() < n || places.len() < s.repairs {
        return Err(Refusal::NoRoom);
    }
    Ok(judge(received, s, repair, places))
}

// The unit's part of the repair buffer when corrected, and of the received word otherwise; what is not there is left out.
pub fn unit<'a>(received: &'a [u8], repair: &'a [u8], badge: Badge, t: usize) -> &'a [u8]
    ensures { result.now ≡ handed_unit badge received.now repair.now t }
{
    match badge {
        Badge::Corrected => octets::front(repair, t),
        _ => octets::front(received, t),
    }
}
