// The way from the near end to the far end: payloads, each in a packet.
use crate::far::FarEnd;
use crate::link::{LONGEST_PACKET, Link};
use crate::near::NearEnd;
use crate::packet::{Counts, Pdu};
use crate::plan;
use crate::plan::CODES;
use channels::ALL_OCTETS;
use table::{Code, LONGEST_PAYLOAD, TABLE_NUMBERS};

// A call: both ends, the multiplex table that they share, the link between them, and what became of the packets that went over it.
#[derive(Drop)]
pub(crate) struct Call {
    near: NearEnd,
    pub far: FarEnd,
    table: [u16; TABLE_NUMBERS],
    pub link: Link,
    pub packets: Counts,
}

impl Call {
    pub(crate) fn new() -> Self {
        Call {
            near: NearEnd::new(),
            far: FarEnd::new(),
            table: plan::fill(),
            link: Link::new(),
            packets: Counts::default(),
        }
    }

    // Sends a payload in a packet, and demultiplexes what the far end reads; a packet that is refused is lost.
    fn pass(&mut self, round: usize, sent: &Pdu) {
        let mut packet = [0u8; LONGEST_PACKET];
        let came = self.link.carry(sent, &mut packet);
        let reading = packets::read(came);
        self.packets.count(sent, self.link.wrong, reading);
        if let Ok(read) = reading {
            let pdu = Pdu {
                code: read.code,
                mark: read.mark,
                payload: packets::payload(came, read.length),
            };
            self.far.demultiplex(round, &self.table, &pdu);
        }
    }

    // Carries payloads under the code's entry until it has none: at most as many as would carry every octet that can wait.
    fn carry_out(&mut self, round: usize, code: Code) {
        for _ in 0..ALL_OCTETS {
            let mut payload = [0u8; LONGEST_PAYLOAD];
            let Some(pdu) = self.near.multiplex(&self.table, code, &mut payload) else {
                break;
            };
            self.pass(round, &pdu);
        }
    }

    // A round: a unit on each channel, and all that waits is carried.
    pub(crate) fn run(&mut self, round: usize) {
        self.near.post_all(round);
        for code in CODES {
            self.carry_out(round, code);
        }
    }
}
