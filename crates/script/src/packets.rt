// The call that writes a packet of level 2, read: pack.
use crate::arguments;
use crate::arguments::Payload;
use crate::call::{PackCall, Packet};
use text::words::Words;

// after MARK: the mark of the packet before, whose closing flag opens this one. A line that names none has the plain flag.
fn after(words: &mut Words<'_>) -> Option<bool> {
    let mut ahead = *words;
    if ahead.next() != b"after".as_slice() {
        return Some(false);
    }
    *words = ahead;
    arguments::next_mark(words)
}

// pack CODE MARK OCTETS [after MARK] [room N]
pub fn pack<'a>(words: &mut Words<'_>, octets: &'a mut [u8]) -> Option<Packet<'a>> {
    let Payload { code, mark, octets } = arguments::next_payload(words, octets)?;
    let opens = after(words)?;
    let room = arguments::room(words, b"room")?;
    Some(Packet::Pack(PackCall {
        opens,
        code,
        mark,
        octets,
        room,
    }))
}
