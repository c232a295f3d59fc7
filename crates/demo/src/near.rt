// The near end: units made, coded, posted and multiplexed.
use crate::packet::Pdu;
use crate::plan;
use crate::plan::{Layer, PLANS, Plan};
use adaptation::al1m;
use channels::{ALL_OCTETS, ChannelNumber, Channels};
use codeword::LONGEST_WORD;
use multiplex::multiplexer;
use std::array;
use table::{Code, LONGEST_PAYLOAD, TABLE_NUMBERS};

// The octets of a payload, at most; a packet has room for 254.
const ROOM: usize = 90;

// The octets that are made for a unit, of which its channel sends the first. (No heap here: a call cannot end for want of memory.)
const LONGEST_UNIT: usize = 128;

// The octet i of a channel's unit.
fn octet(channel: ChannelNumber, round: usize, i: usize) -> u8 {
    let a = usize::from(channel.0) * 101;
    ((a + (round % 256) * 7 + (i % 256) * 31) % 256) as u8
}

// The unit that a channel sends in a round; the far end makes it again, to compare.
pub(crate) fn make(channel: ChannelNumber, round: usize) -> [u8; LONGEST_UNIT] {
    array::from_fn(|i| octet(channel, round, i))
}

// The near end: its channels, and what waits on them to be sent.
#[derive(Drop)]
pub(crate) struct NearEnd {
    channels: Channels,
    waiting: [u8; ALL_OCTETS],
}

impl NearEnd {
    pub(crate) fn new() -> Self {
        NearEnd {
            channels: plan::open_all(),
            waiting: [0; ALL_OCTETS],
        }
    }

    // The unit with what its layer adds, which stands at the front of out; AL1 adds nothing.
    fn code<'a>(
        &mut self,
        plan: &Plan,
        unit: &'a [u8],
        out: &'a mut [u8; LONGEST_WORD],
    ) -> Option<&'a [u8]> {
        let length = match plan.layer {
            Layer::Al1 => return Some(unit),
            Layer::Al1m { width, repairs } => al1m::encode(unit, width, repairs, out),
            Layer::Al2 => self.channels.send(plan.channel, true, unit, out),
        };
        let n = length.ok()?;
        Some(octets::front(out, n))
    }

    // Makes, codes and posts a channel's unit.
    fn post(&mut self, plan: &Plan, round: usize) {
        let made = make(plan.channel, round);
        let unit = octets::front(&made, plan.unit_length);
        let mut out = [0u8; LONGEST_WORD];
        if let Some(coded) = self.code(plan, unit, &mut out) {
            let _ = self.channels.post(&mut self.waiting, plan.channel, coded);
        }
    }

    // One unit on each channel.
    pub(crate) fn post_all(&mut self, round: usize) {
        for plan in &PLANS {
            self.post(plan, round);
        }
    }

    // What is sent next under the code's entry, if anything.
    pub(crate) fn multiplex<'a>(
        &mut self,
        table: &[u16; TABLE_NUMBERS],
        code: Code,
        payload: &'a mut [u8; LONGEST_PAYLOAD],
    ) -> Option<Pdu<'a>> {
        let made = multiplexer::multiplex(
            &mut self.channels,
            &self.waiting,
            table,
            code,
            ROOM,
            payload,
        )
        .ok()?;
        Some(Pdu {
            code,
            mark: made.mark,
            payload: octets::front(payload, made.octets),
        })
    }
}
