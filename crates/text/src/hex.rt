// Octets in hex: two digits for each, in either case.
ghost use Rattle.std.specs.Prelude.{◌≡◌, cond, ◌+◌, ◌*◌, ltb, Some, None};
ghost use Rattle.text.specs.Words.{word_at, word_end};
ghost use Rattle.text.specs.Hex.{hex_digit, is_pair, is_hex, IsDecoded, IsGiven};

use crate::words::Words;

// The value of a digit. (No plainer: `to_digit` gives a number of 32 bits, which would have to be narrowed again.)
#[tactic(auto, unfolding(crate::specs::Hex::hex_digit, crate::specs::Numbers::between))]
fn digit(c: u8) -> Option<u8>
    ensures { result ≡ cond (ltb (hex_digit c) 16) (Some (hex_digit c)) None }
{
    match c {
        b'0'..=b'9' => Some(c - b'0'),
        b'A'..=b'F' => Some(c - b'A' + 10),
        b'a'..=b'f' => Some(c - b'a' + 10),
        _ => None,
    }
}

// The octet of two digits.
pub fn octet(high: u8, low: u8) -> Option<u8>
    ensures { result ≡ cond (is_pair high low) (Some (hex_digit high * 16 + hex_digit low)) None }
{
    let high = digit(high)?;
    let low = digit(low)?;
    Some(high * 16 + low)
}

// Whether a text is pairs of digits.
fn is_hex(text: &[u8]) -> bool
    ensures { result ≡ is_hex text.now }
{
    for n in 0..text.len() / 2 {
        if octet(text[2 * n], text[2 * n + 1]).is_none() {
            return false;
        }
    }
    text.len() % 2 == 0
}

// Puts the octets that a text stands for, `-` for none, at the front of out, and tells how many they are. All is tested before the first
// is written, so that a bad text leaves out as it was.
pub fn decode(text: &[u8], out: &mut [u8]) -> Option<usize>
    ensures { IsDecoded text.now out.old result out.new }
{
    if text == b"-".as_slice() {
        return Some(0);
    }
    let count = text.len() / 2;
    if count == 0 || out.len() < count {
        return None;
    }
    if !is_hex(text) {
        return None;
    }
    for n in 0..count {
        out[n] = octet(text[2 * n], text[2 * n + 1]).unwrap();
    }
    Some(count)
}

impl<'a> Words<'a> {
    // Puts the octets that the next word stands for at the front of out, which a bad word leaves as it was.
    pub fn octets(&mut self, out: &mut [u8]) -> Option<usize>
        ensures octets { IsGiven (word_at self.old.line.now self.old.at) (word_end self.old.line.now self.old.at) out.old result self.new.at out.new }
        ensures line { self.new.line ≡ self.old.line }
    {
        decode(self.next(), out)
    }
}
