// What the words behind a call's name may say: a channel, one of two words, a mark, a payload with its code and mark, octets that end the line, and how much is lent.
use text::words::Words;

// A payload's code, mark and octets.
#[derive(Clone, Copy, Debug, PartialEq, Eq)]
pub struct Payload<'a> {
    pub code: u32,
    pub mark: bool,
    pub octets: &'a [u8],
}

// How many octets are lent, and how many entries of a list beside them: a payload's units, or a repair's places.
#[derive(Clone, Copy, Debug, PartialEq, Eq)]
pub struct Rooms {
    pub octets: u32,
    pub list: u32,
}

// The channel's number that the next word is, to 65,535.
pub fn next_channel(words: &mut Words<'_>) -> Option<u16> {
    u16::try_from(words.number()?).ok()
}

// Whether the next word is the first of two; none where it is not the second either.
pub fn next_choice(words: &mut Words<'_>, first: &[u8], second: &[u8]) -> Option<bool> {
    let word = words.next();
    if word == first {
        return Some(true);
    }
    (word == second).then_some(false)
}

// The closing mark that the next word is, 0 or 1.
pub fn next_mark(words: &mut Words<'_>) -> Option<bool> {
    match words.number()? {
        0 => Some(false),
        1 => Some(true),
        _ => None,
    }
}

// CODE MARK OCTETS
pub fn next_payload<'a>(words: &mut Words<'_>, octets: &'a mut [u8]) -> Option<Payload<'a>> {
    Some(Payload {
        code: words.number()?,
        mark: next_mark(words)?,
        octets: next_octets(words, octets)?,
    })
}

// The octets that the next word stands for, at the front of what is lent.
pub fn next_octets<'a>(words: &mut Words<'_>, octets: &'a mut [u8]) -> Option<&'a [u8]> {
    let count = words.octets(octets)?;
    Some(octets::front(octets, count))
}

// .. of the line's last word.
pub fn last_octets<'a>(words: &mut Words<'_>, octets: &'a mut [u8]) -> Option<&'a [u8]> {
    let octets = next_octets(words, octets)?;
    words.ended().then_some(octets)
}

// What is lent, behind `name`, as the line's last two words; enough where the line has ended.
pub fn room(words: &mut Words<'_>, name: &[u8]) -> Option<u32> {
    if words.ended() {
        return Some(u32::MAX);
    }
    if words.next() != name {
        return None;
    }
    let lent = words.number()?;
    words.ended().then_some(lent)
}

// What is lent of octets and of a list, behind `room`, as the line's last three words; enough where the line has ended.
pub fn two_rooms(words: &mut Words<'_>) -> Option<Rooms> {
    if words.ended() {
        return Some(Rooms {
            octets: u32::MAX,
            list: u32::MAX,
        });
    }
    if words.next() != b"room".as_slice() {
        return None;
    }
    let octets = words.number()?;
    let list = words.number()?;
    words.ended().then_some(Rooms { octets, list })
}
