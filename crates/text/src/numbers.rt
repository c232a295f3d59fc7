// Decimal numbers.
ghost use Rattle.std.specs.Prelude.{◌≡◌, cond, ◌+◌, ◌-◌, ◌*◌, Some, None};
ghost use Rattle.std.specs.List.{prefix_len};
ghost use Rattle.text.specs.Words.{word_at, word_end};
ghost use Rattle.text.specs.Numbers.{is_digit, decimal, capped, decimal_at, number_of};

use crate::words;
use crate::words::Words;

// What a number past 4,294,967,295 is given as. (No `Option`: `capped` in specs/Numbers.antt says so, and the digits behind it are read too.)
const PAST: u64 = 4294967296;

// The value of a digit.
#[tactic(auto, unfolding(crate::specs::Numbers::between))]
pub fn digit(c: u8) -> Option<u8>
    ensures { result ≡ cond (is_digit c) (Some (c - 48)) None }
{
    match c {
        b'0'..=b'9' => Some(c - b'0'),
        _ => None,
    }
}

// A number with one more digit; one past 4,294,967,295 is given as 4,294,967,296.
pub fn append(value: u64, last: u8) -> u64
    ensures { result ≡ capped (value * 10 + last) }
{
    (value.min(PAST) * 10 + u64::from(last)).min(PAST)
}

// How many digits a text begins with.
#[tactic(auto, unfolding(crate::specs::Numbers::between))]
fn count(text: &[u8]) -> usize
    ensures { result ≡ prefix_len is_digit text.now }
{
    text.iter().take_while(|c| c.is_ascii_digit()).count()
}

// The number of these digits; one past 4,294,967,295 is given as 4,294,967,296.
fn value(digits: &[u8]) -> u64
    ensures { result ≡ capped (decimal digits.now) }
{
    digits
        .iter()
        .fold(0, |value, c| append(value, c.saturating_sub(b'0')))
}

// The number whose digits stand from `at` on, and the place behind them; one past 4,294,967,295 is given as 4,294,967,296.
#[tactic(auto, using(crate::proofs::Leading::leading))]
pub fn digits(text: &[u8], at: usize) -> Option<(u64, usize)>
    ensures { result ≡ decimal_at text.now at }
{
    let text = words::ahead(text, at);
    let own = &text[..count(text)];
    if own.is_empty() {
        return None;
    }
    Some((value(own), at + own.len()))
}

// The number that a word is, to 4,294,967,295.
pub fn number(word: &[u8]) -> Option<u32>
    ensures { result ≡ number_of word.now }
{
    let (value, end) = digits(word, 0)?;
    if end < word.len() {
        return None;
    }
    u32::try_from(value).ok()
}

impl<'a> Words<'a> {
    // The number that the next word is, to 4,294,967,295.
    pub fn number(&mut self) -> Option<u32>
        ensures number { result ≡ number_of (word_at self.old.line.now self.old.at) }
        ensures place { self.new.at ≡ word_end self.old.line.now self.old.at }
        ensures line { self.new.line ≡ self.old.line }
    {
        number(self.next())
    }
}
