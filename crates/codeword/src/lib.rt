// The code word of 003, D.4.1.7.3: encoding and repair.
#![tactic(auto)]

mod encoding;
mod generator;
mod interpolation;
mod lanes;
mod locator;
mod powers;
mod rows;
mod search;
mod syndromes;
mod values;

ghost use Rattle.std.specs.Prelude.{◌≤◌, length};
ghost use Rattle.codeword.specs.CodeWord.{longest_word};
ghost use Rattle.codeword.specs.Register.{Padded};
ghost use Rattle.codeword.specs.Encoding.{Encoded};
ghost use Rattle.codeword.specs.Syndromes.{Decodable};
ghost use Rattle.codeword.specs.Repair.{Repaired};

use crate::powers::Powers;

// The octets of the longest word (003, D.4.1.7.3): as many as α has powers.
pub const LONGEST_WORD: usize = 255;

// The octets s, and zeros behind.
fn padded(s: &[u8]) -> [u8; LONGEST_WORD]
    requires { length s.now ≤ longest_word }
    ensures { Padded longest_word s.now result }
{
    let mut r = [0u8; LONGEST_WORD];
    octets::write(&mut r, 0, s);
    r
}

// The message and the 2e octets of its parity into the front of `sent`: how many octets that are. Where the message is empty, the
// whole is longer than the longest word, or `sent` is too short, none, and nothing is written.
pub fn encode(message: &[u8], e: usize, sent: &mut [u8]) -> Option<usize>
    ensures { Encoded e message.now sent.old result sent.new }
{
    let k = message.len();
    if k == 0 || LONGEST_WORD < k || (LONGEST_WORD - k) / 2 < e || sent.len() < k + 2 * e {
        return None;
    }
    let p = encoding::parity(message, e);
    octets::write(sent, 0, message);
    octets::write(sent, k, &p[..2 * e]);
    Some(k + 2 * e)
}

// The code word within e octets of a word with the syndromes s, and the places at which they differ, if there is one.
fn decode(
    received: &[u8],
    s: &[u8; LONGEST_WORD],
    e: usize,
    powers: &Powers,
    repaired: &mut [u8],
    places: &mut [u8],
) -> Option<usize>
    requires { Decodable e received.now (record { repair = repaired.old; places = places.old }) s.now }
    ensures { Repaired e received.now (record { repair = repaired.old; places = places.old }) result
        (record { repair = repaired.new; places = places.new }) }
{
    let n = received.len();
    let recurrence = locator::locator(s, e);
    let l = recurrence.degree;
    if e < l {
        return None;
    }
    let c = recurrence.coefficients;
    let roots = search::search(&c, l, n, powers);
    let count = roots.count;
    if count != l {
        return None;
    }
    let at = &roots.at[..l];
    let o = recurrence.evaluator;
    let d = values::odds(&c);
    octets::write(repaired, 0, received);
    values::correct(repaired, n, at, &o, &d, powers);
    octets::write(places, 0, at);
    Some(l)
}

// The code word within e octets of the received word into the front of `repaired`, the places at which they differ, rising, into the front
// of `places`, and how many these are; or none where it is out of reach, and nothing is written. Where the word is longer than the longest or
// not over 2e, `repaired` is shorter, or `places` shorter than e, it is out of reach too.
pub fn repair(received: &[u8], e: usize, repaired: &mut [u8], places: &mut [u8]) -> Option<usize>
    ensures { Repaired e received.now (record { repair = repaired.old; places = places.old }) result
        (record { repair = repaired.new; places = places.new }) }
{
    let n = received.len();
    if n == 0 || LONGEST_WORD < n || (n - 1) / 2 < e || repaired.len() < n || places.len() < e {
        return None;
    }
    let powers = Powers::new();
    let s = syndromes::syndromes(received, 2 * e, &powers);
    if syndromes::clean(&s, 2 * e) {
        octets::write(repaired, 0, received);
        return Some(0);
    }
    decode(received, &s, e, &powers, repaired, places)
}
