// The plan: the channels, their layers and the table's entries. Control is in AL1, two of speech and one of pictures in AL1M with settings
// of their own, data in AL2 with the number.
use channels::{ChannelNumber, Channels};
use std::fmt;
use std::fmt::{Display, Formatter, InlineText};
use table::{Code, TABLE_NUMBERS};

// How many units each channel sends: one a round.
pub(crate) const ROUNDS: usize = 100;

// How many channels there are.
pub(crate) const CHANNELS: usize = 5;

// A channel's layer: AL1M with a check of `width` bits and as many repairs, AL2 with the number.
#[derive(Clone, Copy, Debug, PartialEq, Eq)]
pub(crate) enum Layer {
    Al1,
    Al1m { width: u32, repairs: u32 },
    Al2,
}

// The octets of the longest text of a layer, and more.
const LAYER_TEXT: usize = 40;

impl Display for Layer {
    fn fmt<W: fmt::Write>(&self, f: &mut Formatter<W>) -> fmt::Result {
        match self {
            Layer::Al1 => f.pad("AL1"),
            Layer::Al1m { width, repairs } => {
                let text = InlineText::<LAYER_TEXT>::of(format_args!(
                    "AL1M check {width}, e {repairs}"
                ));
                f.pad(text.as_str())
            }
            Layer::Al2 => f.pad("AL2 numbered"),
        }
    }
}

// A channel's plan: its number, its layer, whether it is segmentable, as speech is not, and the octets of its units.
#[derive(Clone, Copy, Debug, PartialEq, Eq)]
pub(crate) struct Plan {
    pub channel: ChannelNumber,
    pub layer: Layer,
    pub segmentable: bool,
    pub unit_length: usize,
}

pub(crate) const PLANS: [Plan; CHANNELS] = [
    Plan {
        channel: ChannelNumber(0),
        layer: Layer::Al1,
        segmentable: true,
        unit_length: 12,
    },
    Plan {
        channel: ChannelNumber(1),
        layer: Layer::Al1m {
            width: 8,
            repairs: 2,
        },
        segmentable: false,
        unit_length: 20,
    },
    Plan {
        channel: ChannelNumber(2),
        layer: Layer::Al2,
        segmentable: true,
        unit_length: 30,
    },
    Plan {
        channel: ChannelNumber(3),
        layer: Layer::Al1m {
            width: 16,
            repairs: 8,
        },
        segmentable: true,
        unit_length: 100,
    },
    Plan {
        channel: ChannelNumber(4),
        layer: Layer::Al1m {
            width: 8,
            repairs: 1,
        },
        segmentable: false,
        unit_length: 10,
    },
];

// The channels as either end opens them. Channel 0 is open from the start.
pub(crate) fn open_all() -> Channels {
    let mut s = Channels::new();
    for plan in &PLANS {
        let _ = s.open(plan.channel, plan.segmentable);
    }
    s
}

// The codes under which payloads are carried, one after another.
pub(crate) const CODES: [Code; 5] = [Code(1), Code(2), Code(3), Code(4), Code(0)];

// The entries: 1 is {LCN1,RC25},{{LCN2,RC1},{LCN3,RC3},RC UCF}, 2 is {LCN4,RC13},{{LCN2,RC2},{LCN3,RC6},{LCN0,RC1},RC UCF},
// 3 is {LCN3,RC UCF}, 4 is {LCN2,RC UCF}.
const ENTRIES: [(Code, &[u16]); 4] = [
    (Code(1), &[2, 25, 0, 1, 0, 2, 1, 0, 2, 3, 0, 3]),
    (Code(2), &[2, 13, 0, 4, 0, 3, 2, 0, 2, 6, 0, 3, 1, 0, 0]),
    (Code(3), &[1, 0, 0, 3]),
    (Code(4), &[1, 0, 0, 2]),
];

// The table with these entries.
pub(crate) fn fill() -> [u16; TABLE_NUMBERS] {
    let mut table = [0u16; TABLE_NUMBERS];
    for (code, entry) in ENTRIES {
        let _ = table::replace(&mut table, code, entry);
    }
    table
}
