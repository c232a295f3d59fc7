// The call that takes the raw octets of packets: link.
ghost use Rattle.std.specs.Prelude.{ℕ, ◌≡◌, ◌≤◌, ◌<◌, length, drop};

use crate::answer;
use crate::state::Gateway;
use multiplex::units::{ENOUGH_OUTPUT, ENOUGH_UNITS};
use packets::Packet;

// The octets that the closing flag of the last packet has.
const CLOSING: usize = 2;

// How long a gap is that begins at the front: to the first place behind it at which a packet can be read, or to the end.
fn gap(octets: &[u8]) -> usize
    ensures { (result ≤ length octets.now) × (0 < length octets.now → 0 < result) }
{
    (1..octets.len())
        .find(|n| packets::read(&octets[*n..]).is_ok())
        .unwrap_or(octets.len())
}

impl Gateway {
    // Demultiplexes a packet's payload, with room enough, and answers it or says why it is refused.
    fn take_packet(&mut self, rt: &(impl Print + Eprint), p: Packet, octets: &[u8]) {
        let mut output = [0u8; ENOUGH_OUTPUT];
        let mut list = [0u16; ENOUGH_UNITS];
        let payload = packets::payload(octets, p.length);
        let taken = self.take_payload(rt, p.code, p.mark, payload, &mut output, &mut list);
        if let Err(refusal) = taken {
            answer::refused(rt, refusal);
        }
    }

    // Answers the packet at the front, or the gap that begins there, and gives the octets behind it.
    fn step<'a>(&mut self, rt: &(impl Print + Eprint), octets: &'a [u8]) -> &'a [u8]
        ensures { (n : ℕ) × (result.now ≡ drop n octets.now) × (n ≤ length octets.now) × (0 < length octets.now → 0 < n) }
    {
        match packets::read(octets) {
            Ok(p) => {
                self.take_packet(rt, p, octets);
                &octets[p.next..]
            }
            Err(refusal) => {
                answer::refused(rt, refusal);
                &octets[gap(octets)..]
            }
        }
    }

    // Takes packet after packet, until nothing is left but the closing flag of the last, or no packet can be read up to the end.
    // Each packet and each gap is answered by itself, so that the call has no refusal of its own. (No iterator: each step changes what the
    // gateway keeps, and shows only then where the next one begins.)
    pub fn link(&mut self, rt: &(impl Print + Eprint), octets: &[u8]) {
        let mut rest = self.step(rt, octets);
        while CLOSING < rest.len() {
            rest = self.step(rt, rest);
        }
    }
}
