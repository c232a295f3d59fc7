// Packets of level 2 (000, B.3.1 to B.3.3): flag, header, payload, closing flag. The closing flag is also the next packet's first, and its
// complement is the closing mark.
#![tactic(auto)]

mod flags; // flags.rt: the flag and its complement
mod header; // header.rt: multiplex code and length, with their parity

ghost use Rattle.std.specs.Prelude.{◌≡◌};
ghost use Rattle.calls.specs.Refusal.{ended, says};
ghost use Rattle.packets.specs.Packet as packet;
ghost use Rattle.packets.specs.Packet.{payload_at, read_says, wrote};

use crate::flags::Flag;
use calls::Refusal;
use table::{Code, HIGHEST_CODE};

// The octets of the longest payload: a length of 255 is not used (B.3.2.1.2).
pub const LONGEST: usize = 254;

// The octets before a payload, flag and header; and all those around it.
pub const BEFORE: usize = 5;

pub const AROUND: usize = 7;

// What a packet says: its multiplex code, whether its closing flag is the closing mark, how many octets its payload has, and how many octets on
// from its own the next packet's flag lies.
#[derive(Clone, Copy, Debug, PartialEq, Eq)]
pub struct Packet {
    pub code: Code,
    pub mark: bool,
    pub length: usize,
    pub next: usize,
}

// Reads the packet at the front of the octets: refusals 15 (the flag, or cut short), 17 (the header), 2 (a length of 255), 15 (the
// closing flag, or cut short).
#[tactic(auto, unfolding(crate::specs::Packet::read))]
pub fn read(octets: &[u8]) -> Result<Packet, Refusal>
    ensures { read_says result ≡ packet.read octets.now }
{
    flags::at(octets, 0).ok_or(Refusal::BadForm)?;
    if octets.len() < BEFORE {
        return Err(Refusal::BadForm);
    }
    let said = golay::find(header::word(octets)).ok_or(Refusal::BadHeader)?;
    let length = said as usize / 16;
    if LONGEST < length {
        return Err(Refusal::BadLength);
    }
    let next = BEFORE + length;
    let closing = flags::at(octets, next).ok_or(Refusal::BadForm)?;
    Ok(Packet {
        code: Code(said % 16),
        mark: closing == Flag::Complemented,
        length,
        next,
    })
}

// The payload of so many octets where it lies in a packet, or what is there of it.
pub fn payload(octets: &[u8], length: usize) -> &[u8]
    ensures { result.now ≡ payload_at length octets.now }
{
    octets::front(octets.get(BEFORE..).unwrap_or(&[]), length)
}

// Writes a packet to the front of what is lent, by the form of flag that opens it: refusals 4, 2, 3.
#[tactic(auto, unfolding(crate::specs::Packet::wrote))]
pub fn write(
    opens: bool,
    code: Code,
    mark: bool,
    payload: &[u8],
    packet: &mut [u8],
) -> Result<usize, Refusal>
    ensures { ended (says result) packet.new ≡ wrote opens code.0 mark payload.now packet.old }
{
    let c = code.0;
    if HIGHEST_CODE < c {
        return Err(Refusal::NoEntry);
    }
    let n = payload.len();
    if LONGEST < n {
        return Err(Refusal::BadLength);
    }
    if packet.len() < n + AROUND {
        return Err(Refusal::NoRoom);
    }
    octets::write(packet, 0, &Flag::from(opens).octets());
    octets::write(packet, 2, &header::of(c, n as u32));
    octets::write(packet, BEFORE, payload);
    octets::write(packet, BEFORE + n, &Flag::from(mark).octets());
    Ok(n + AROUND)
}
