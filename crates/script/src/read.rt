// A line, read into a call: its octets are put at the front of `octets`, the numbers of its table entry at the front of `numbers`.
use crate::arguments::{Payload, Rooms, last_octets, next_octets};
use crate::call::{Call, Coding, CodingCall, DemuxCall, Malformed, MuxCall, Packet, UnitCall};
use crate::{arguments, descriptor, packets};
use text::words::Words;

// WIDTH E OCTETS
fn settings<'a>(words: &mut Words<'_>, octets: &'a mut [u8]) -> Option<CodingCall<'a>> {
    Some(CodingCall {
        width: words.number()?,
        e: words.number()?,
        octets: next_octets(words, octets)?,
    })
}

// encode WIDTH E OCTETS [room N]
fn encode<'a>(words: &mut Words<'_>, octets: &'a mut [u8]) -> Option<Coding<'a>> {
    let coding = settings(words, octets)?;
    let room = arguments::room(words, b"room")?;
    Some(Coding::Encode { coding, room })
}

// receive WIDTH E OCTETS [room REPAIR PLACES]
fn receive<'a>(words: &mut Words<'_>, octets: &'a mut [u8]) -> Option<Coding<'a>> {
    let coding = settings(words, octets)?;
    let Rooms { octets, list } = arguments::two_rooms(words)?;
    Some(Coding::Receive {
        coding,
        room: octets,
        places: list,
    })
}

// length WIDTH E T
fn length<'a>(words: &mut Words<'_>) -> Option<Coding<'a>> {
    let width = words.number()?;
    let e = words.number()?;
    let t = words.number()?;
    words.ended().then_some(Coding::Length { width, e, t })
}

// open CHANNEL segmentable, open CHANNEL whole
fn open<'a>(words: &mut Words<'_>) -> Option<Call<'a>> {
    let channel = arguments::next_channel(words)?;
    let segmentable = arguments::next_choice(words, b"segmentable", b"whole")?;
    words.ended().then_some(Call::Open {
        channel,
        segmentable,
    })
}

// CHANNEL, the line's last word
fn last_channel(words: &mut Words<'_>) -> Option<u16> {
    let channel = arguments::next_channel(words)?;
    words.ended().then_some(channel)
}

// entry CODE DESCRIPTOR
fn entry<'a>(words: &mut Words<'_>, numbers: &'a mut [u16]) -> Option<Call<'a>> {
    let code = words.number()?;
    let count = descriptor::read(words.rest(), numbers)?;
    let numbers = &numbers[..count.min(numbers.len())];
    Some(Call::Entry { code, numbers })
}

// post CHANNEL OCTETS
fn post<'a>(words: &mut Words<'_>, octets: &'a mut [u8]) -> Option<Call<'a>> {
    let channel = arguments::next_channel(words)?;
    let octets = last_octets(words, octets)?;
    Some(Call::Post { channel, octets })
}

// mux CODE ROOM [lent N]
fn mux<'a>(words: &mut Words<'_>) -> Option<Call<'a>> {
    let code = words.number()?;
    let room = words.number()?;
    let lent = arguments::room(words, b"lent")?;
    Some(Call::Mux(MuxCall { code, room, lent }))
}

// demux CODE MARK OCTETS [room OCTETS UNITS]
fn demux<'a>(words: &mut Words<'_>, octets: &'a mut [u8]) -> Option<Call<'a>> {
    let Payload { code, mark, octets } = arguments::next_payload(words, octets)?;
    let rooms = arguments::two_rooms(words)?;
    Some(Call::Demux(DemuxCall {
        code,
        mark,
        octets,
        room: rooms.octets,
        units: rooms.list,
    }))
}

// CHANNEL numbered OCTETS, CHANNEL plain OCTETS
fn unit<'a>(words: &mut Words<'_>, octets: &'a mut [u8]) -> Option<UnitCall<'a>> {
    Some(UnitCall {
        channel: arguments::next_channel(words)?,
        numbered: arguments::next_choice(words, b"numbered", b"plain")?,
        octets: next_octets(words, octets)?,
    })
}

// send CHANNEL numbered OCTETS [room N], send CHANNEL plain OCTETS [room N]
fn send<'a>(words: &mut Words<'_>, octets: &'a mut [u8]) -> Option<Call<'a>> {
    let unit = unit(words, octets)?;
    let room = arguments::room(words, b"room")?;
    Some(Call::Send { unit, room })
}

// take CHANNEL numbered OCTETS, take CHANNEL plain OCTETS
fn take<'a>(words: &mut Words<'_>, octets: &'a mut [u8]) -> Option<Call<'a>> {
    let unit = unit(words, octets)?;
    words.ended().then_some(Call::Take(unit))
}

// The call of a line's words, of which the first is its name; none where it cannot be read. Beside those above: close CHANNEL,
// reset CHANNEL, unpack OCTETS, link OCTETS, al1 OCTETS.
fn named<'a>(
    words: &mut Words<'_>,
    octets: &'a mut [u8],
    numbers: &'a mut [u16],
) -> Option<Call<'a>> {
    match words.next() {
        b"open" => open(words),
        b"close" => last_channel(words).map(|channel| Call::Close { channel }),
        b"reset" => last_channel(words).map(|channel| Call::Reset { channel }),
        b"entry" => entry(words, numbers),
        b"post" => post(words, octets),
        b"mux" => mux(words),
        b"demux" => demux(words, octets),
        b"send" => send(words, octets),
        b"take" => take(words, octets),
        b"pack" => packets::pack(words, octets).map(Call::Packet),
        b"unpack" => last_octets(words, octets).map(|octets| Call::Packet(Packet::Unpack {
            octets,
        })),
        b"link" => last_octets(words, octets).map(|octets| Call::Packet(Packet::Link { octets })),
        b"length" => length(words).map(Call::Coding),
        b"encode" => encode(words, octets).map(Call::Coding),
        b"receive" => receive(words, octets).map(Call::Coding),
        b"al1" => last_octets(words, octets).map(|octets| Call::Coding(Coding::Al1 { octets })),
        _ => None,
    }
}

// What a line asks for: nothing, where it is empty or begins with #.
pub fn call<'a>(
    line: &[u8],
    octets: &'a mut [u8],
    numbers: &'a mut [u16],
) -> Result<Option<Call<'a>>, Malformed> {
    match line {
        [] | [b'#', ..] => Ok(None),
        _ => named(&mut Words::of(line), octets, numbers)
            .map(Some)
            .ok_or(Malformed),
    }
}
