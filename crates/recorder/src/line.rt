// A line of a list of units, octet by octet: CHANNEL BADGE CHANGED OCTETS. Only its numbers and the octets of one unit are kept, so a line
// may have any length: of a number that is too large, and of octets that are too many, it is enough to know that they are.
use text::{hex, numbers};

// One octet more than a unit may have: a unit that has as many is out of range, whatever follows.
const MOST: usize = 1025;

// The words in front of OCTETS, each a number.
const NUMBERS: usize = 3;

// What a line is so far: no octet yet; passed over, since it begins with #; words that may be a unit's; or none of these.
#[derive(Clone, Copy, Debug, PartialEq, Eq)]
enum Form {
    Empty,
    Passed,
    Words,
    Malformed,
}

// A line that has not the form.
#[derive(Clone, Copy, Debug, PartialEq, Eq)]
pub struct Malformed;

// A unit's numbers and its octets.
#[derive(Clone, Copy, Debug)]
pub struct Unit<'a> {
    pub channel: u16,
    pub badge: u16,
    pub changed: u16,
    pub octets: &'a [u8],
}

// What is known of a line so far: its form; how many words have begun, and whether the last goes on; the three numbers; of OCTETS whether
// it is `-`, the first digit of an octet that lacks its second, and the octets before that. (No heap: a line keeps one unit's octets.)
#[derive(Drop)]
pub struct Line {
    form: Form,
    words: usize,
    inside: bool,
    numbers: [u64; NUMBERS],
    dash: bool,
    first: Option<u8>,
    count: usize,
    octets: [u8; MOST],
}

// A number of 16 bits, or the largest.
fn short(n: u64) -> u16 {
    u16::try_from(n).unwrap_or(u16::MAX)
}

impl Line {
    // The beginning of a line.
    pub fn new() -> Line {
        Line {
            form: Form::Empty,
            words: 0,
            inside: false,
            numbers: [0; NUMBERS],
            dash: false,
            first: None,
            count: 0,
            octets: [0; MOST],
        }
    }

    // Takes an octet that is no space, unless the line cannot have the form any more.
    fn letter(&mut self, octet: u8) -> Option<()> {
        if !self.inside {
            self.words = self.words.checked_add(1)?;
            self.inside = true;
        }
        let word = self.words.checked_sub(1)?;
        if word < NUMBERS {
            let digit = numbers::digit(octet)?;
            self.numbers[word] = numbers::append(self.numbers[word], digit);
            return Some(());
        }
        if word == NUMBERS {
            return self.digit(octet);
        }
        None
    }

    // Takes an octet of the last word: `-`, the first digit of an octet, or the second.
    fn digit(&mut self, octet: u8) -> Option<()> {
        if self.dash {
            return None;
        }
        match self.first {
            Some(first) => {
                self.put(hex::octet(first, octet)?);
                self.first = None;
            }
            None if self.count == 0 && octet == b'-' => self.dash = true,
            None => self.first = Some(octet),
        }
        Some(())
    }

    // Puts an octet behind those of the unit, if there is room.
    fn put(&mut self, octet: u8) {
        if self.count < MOST {
            self.octets[self.count] = octet;
            self.count += 1;
        }
    }

    // Takes an octet of words.
    fn word(&mut self, octet: u8) {
        self.form = Form::Words;
        if octet == b' ' {
            self.inside = false;
        } else if self.letter(octet).is_none() {
            self.form = Form::Malformed;
        }
    }

    // Takes one octet more of the line.
    pub fn take(&mut self, octet: u8) {
        match self.form {
            Form::Empty if octet == b'#' => self.form = Form::Passed,
            Form::Empty | Form::Words => self.word(octet),
            Form::Passed | Form::Malformed => (),
        }
    }

    // The unit of a line that has its form. One whose channel is too large is out of range: it is given a badge that there is not.
    fn unit(&self) -> Unit<'_> {
        let [channel, badge, changed] = self.numbers;
        let badge = if 65535 < channel { 65535 } else { badge };
        Unit {
            channel: short(channel),
            badge: short(badge),
            changed: short(changed),
            octets: octets::front(&self.octets, self.count),
        }
    }

    // What the whole line says: a unit, or nothing where it is passed over.
    pub fn end(&self) -> Result<Option<Unit<'_>>, Malformed> {
        match self.form {
            Form::Empty | Form::Passed => Ok(None),
            Form::Words if NUMBERS < self.words && self.first.is_none() => Ok(Some(self.unit())),
            Form::Words | Form::Malformed => Err(Malformed),
        }
    }
}
