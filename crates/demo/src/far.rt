// The far end: each finished unit is handed to its layer where it lies in the demultiplexer's output, judged, and compared with what
// was sent.
use crate::example::Example;
use crate::packet::Pdu;
use crate::plan::{CHANNELS, Layer};
use crate::tally::Account;
use crate::{near, plan, tally};
use adaptation::al1m::MOST_PLACES;
use adaptation::{Badge, al1m, al2};
use channels::{ALL_OCTETS, Channels, layers};
use codeword::LONGEST_WORD;
use multiplex::units::{ENOUGH_OUTPUT, ENOUGH_UNITS, Unit};
use multiplex::{demultiplexer, units};
use table::TABLE_NUMBERS;

// What became of a unit that was handed up: its badge, how many octets were repaired, and whether it is what was sent.
#[derive(Clone, Copy, Debug, PartialEq, Eq)]
pub(crate) struct Verdict {
    pub badge: Badge,
    pub repaired: usize,
    pub same: bool,
}

impl Verdict {
    // Whether the badge is green, clean or corrected, and the unit differs from what was sent.
    pub(crate) fn is_wrongly_green(&self) -> bool {
        !self.same && matches!(self.badge, Badge::Clean | Badge::Corrected)
    }
}

// A finished unit where it lies in the output, and what was sent. All that waits is sent in its round, so a unit that comes to an end is
// compared with the one sent in that round: it differs also where a part of it was lost, or where it was joined to one whose end was lost.
#[derive(Clone, Copy)]
struct Case<'a> {
    output: &'a [u8],
    unit: Unit,
    sent: &'a [u8],
}

impl Case<'_> {
    fn whole(&self) -> &[u8] {
        layers::unit_at(self.output, self.unit.start, self.unit.length)
    }

    fn by_al1(&self) -> Option<Verdict> {
        let badge = layers::al1_at(self.output, self.unit.start, self.unit.length).ok()?;
        Some(Verdict {
            badge,
            repaired: 0,
            same: self.whole() == self.sent,
        })
    }

    fn by_al2(&self, channels: &mut Channels) -> Option<Verdict> {
        let unit = self.unit;
        let delivery = channels
            .al2_at(unit.channel, true, self.output, unit.start, unit.length)
            .ok()??;
        Some(Verdict {
            badge: delivery.badge,
            repaired: 0,
            same: al2::unit(self.whole(), true) == self.sent,
        })
    }

    fn by_al1m(&self, width: u32, repairs: u32) -> Option<Verdict> {
        let mut repair = [0u8; LONGEST_WORD];
        let mut places = [0u8; MOST_PLACES];
        let j = layers::al1m_at(
            self.output,
            self.unit.start,
            self.unit.length,
            width,
            repairs,
            &mut repair,
            &mut places,
        )
        .ok()?;
        let repaired = if j.badge == Badge::Corrected {
            j.changed
        } else {
            0
        };
        Some(Verdict {
            badge: j.badge,
            repaired,
            same: al1m::unit(self.whole(), &repair, j.badge, j.length) == self.sent,
        })
    }
}

// The far end: its channels, and what they hold; what was counted of their units; and the unit that is shown, once it has come.
#[derive(Drop)]
pub(crate) struct FarEnd {
    channels: Channels,
    held: [u8; ALL_OCTETS],
    pub accounts: [Account; CHANNELS],
    pub example: Option<Example>,
}

impl FarEnd {
    pub(crate) fn new() -> Self {
        FarEnd {
            channels: plan::open_all(),
            held: [0; ALL_OCTETS],
            accounts: tally::open_accounts(),
            example: None,
        }
    }

    // Judges a unit that lies in the output, and counts it.
    fn judge(&mut self, round: usize, output: &[u8], unit: Unit) {
        let here = |a: &Account| a.plan.channel == unit.channel;
        let Some(k) = self.accounts.iter().position(here) else {
            return;
        };
        let account = &mut self.accounts[k];
        let made = near::make(unit.channel, round);
        let sent = octets::front(&made, account.plan.unit_length);
        let case = Case { output, unit, sent };
        let verdict = match account.plan.layer {
            Layer::Al1 => case.by_al1(),
            Layer::Al1m { width, repairs } => case.by_al1m(width, repairs),
            Layer::Al2 => case.by_al2(&mut self.channels),
        };
        account.tally.count(verdict);
        if self.example.is_none() {
            self.example = verdict.and_then(|v| Example::of(&account.plan, case.whole(), v));
        }
    }

    // Demultiplexes what a packet carried, and judges each unit that it finishes.
    pub(crate) fn demultiplex(&mut self, round: usize, table: &[u16; TABLE_NUMBERS], pdu: &Pdu) {
        let mut output = [0u8; ENOUGH_OUTPUT];
        let mut units = [0u16; ENOUGH_UNITS];
        let finished = demultiplexer::demultiplex(
            &mut self.channels,
            &mut self.held,
            table,
            pdu.code,
            pdu.mark,
            pdu.payload,
            &mut output,
            &mut units,
        );
        let n = finished.unwrap_or(0);
        for unit in (0..n).filter_map(|j| units::unit_at(&units, j)) {
            self.judge(round, &output, unit);
        }
    }
}
