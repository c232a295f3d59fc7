// What the gateway keeps, and a call carried out on it and answered.
use crate::{answer, coding, packet};
use calls::Refusal;
use channels::{ALL_OCTETS, ChannelNumber, Channels};
use script::call::{Call, Packet};
use table::{Code, TABLE_NUMBERS};

// The channels, the octets that they hold and those that wait on them, and the multiplex table.
#[derive(Drop)]
pub struct Gateway {
    pub channels: Channels,
    pub held: [u8; ALL_OCTETS],
    pub waiting: [u8; ALL_OCTETS],
    pub table: [u16; TABLE_NUMBERS],
}

impl Gateway {
    // No call was carried out.
    pub fn new() -> Gateway {
        Gateway {
            channels: Channels::new(),
            held: [0; ALL_OCTETS],
            waiting: [0; ALL_OCTETS],
            table: [0; TABLE_NUMBERS],
        }
    }

    // Carries a call out and answers it, or says why it is refused.
    pub fn answer(&mut self, rt: &(impl Print + Eprint), call: Call<'_>) {
        if let Err(refusal) = self.carry_out(rt, call) {
            answer::refused(rt, refusal);
        }
    }

    fn carry_out(&mut self, rt: &(impl Print + Eprint), call: Call<'_>) -> Result<(), Refusal> {
        let changed = match call {
            Call::Coding(c) => return coding::carry_out(rt, c),
            Call::Mux(c) => return self.multiplex(rt, c),
            Call::Demux(c) => return self.demultiplex(rt, c),
            Call::Packet(c) => return self.packet(rt, c),
            Call::Send { unit, room } => return self.send(rt, unit, room),
            Call::Take(unit) => return self.take(rt, unit),
            Call::Entry { code, numbers } => {
                table::replace(&mut self.table, Code(code), numbers)
            }
            Call::Open {
                channel,
                segmentable,
            } => self.channels.open(ChannelNumber(channel), segmentable),
            Call::Close { channel } => self.channels.close(ChannelNumber(channel)),
            Call::Reset { channel } => self.channels.restart(ChannelNumber(channel)),
            Call::Post { channel, octets } => {
                self.channels
                    .post(&mut self.waiting, ChannelNumber(channel), octets)
            }
        };
        changed?;
        print::line(rt, "done");
        Ok(())
    }

    fn packet(&mut self, rt: &(impl Print + Eprint), call: Packet<'_>) -> Result<(), Refusal> {
        match call {
            Packet::Pack(c) => packet::pack(rt, c),
            Packet::Unpack { octets } => packet::unpack(rt, octets),
            Packet::Link { octets } => {
                self.link(rt, octets);
                Ok(())
            }
        }
    }
}
