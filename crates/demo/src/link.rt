// The bad link: what its noise does to the header and the payload of a packet. Flags stay intact, so the far end finds each packet.
use crate::packet::Pdu;

// The octets of a packet, at most.
pub(crate) const LONGEST_PACKET: usize = packets::LONGEST + packets::AROUND;

// The octets of the flag, and of the header behind it.
const FLAG: usize = 2;

const HEADER: usize = packets::BEFORE - FLAG;

// The link: whether the complemented flag closed the last packet and opens the next, as `packets::write` asks it; the noise that the last
// bit or octet met; how many bits of the last header are wrong; and how many octets of payload were carried, and damaged.
#[derive(Clone, Copy)]
pub(crate) struct Link {
    complemented: bool,
    noise: u32,
    pub wrong: u32,
    pub octets: usize,
    pub damaged: usize,
}

// What the noise does to an octet of payload: one in 24 is hit.
fn hit(noise: u32, octet: u8) -> u8 {
    if noise % 24 == 0 {
        return octet ^ ((noise / 24 % 255) as u8 + 1);
    }
    octet
}

impl Link {
    pub(crate) fn new() -> Self {
        Link {
            complemented: false,
            noise: 1,
            wrong: 0,
            octets: 0,
            damaged: 0,
        }
    }

    // The noise that follows: the multiplier and the modulus of Park and Miller.
    fn follow(&mut self) -> u32 {
        self.noise = (u64::from(self.noise) * 16807 % 2147483647) as u32;
        self.noise
    }

    // Whether the noise turns the next bit of a header: it does one in 20, so that about one header in thirty has more than three wrong.
    fn turns(&mut self) -> bool {
        self.follow() % 20 == 0
    }

    // Damages an octet of the header, bit 1 first.
    fn damage_bits(&mut self, octet: &mut u8) {
        for bit in 0..8u32 {
            if self.turns() {
                *octet ^= 1 << bit;
                self.wrong = self.wrong.saturating_add(1);
            }
        }
    }

    // Damages an octet of the payload.
    fn damage_octet(&mut self, octet: &mut u8) {
        let sent = *octet;
        *octet = hit(self.follow(), sent);
        self.octets = self.octets.saturating_add(1);
        if *octet != sent {
            self.damaged = self.damaged.saturating_add(1);
        }
    }

    // Damages a packet with n octets of payload.
    fn damage(&mut self, packet: &mut [u8; LONGEST_PACKET], n: usize) {
        self.wrong = 0;
        for octet in packet.iter_mut().skip(FLAG).take(HEADER) {
            self.damage_bits(octet);
        }
        for octet in packet.iter_mut().skip(packets::BEFORE).take(n) {
            self.damage_octet(octet);
        }
    }

    // Writes a packet, opened by the closing flag of the one before, and carries it: what comes of it, or nothing, where it could not be
    // written.
    pub(crate) fn carry<'a>(
        &mut self,
        pdu: &Pdu,
        packet: &'a mut [u8; LONGEST_PACKET],
    ) -> &'a [u8] {
        match packets::write(self.complemented, pdu.code, pdu.mark, pdu.payload, packet) {
            Ok(n) => {
                self.complemented = pdu.mark;
                self.damage(packet, pdu.payload.len());
                octets::front(packet, n)
            }
            Err(_) => &[],
        }
    }
}
