// One unit of the call, as it came and as it was repaired, one above the other, with the repaired octets marked.
use crate::far::Verdict;
use crate::plan::{Layer, Plan};
use adaptation::al1m;
use channels::ChannelNumber;
use print::values::List;
use std::fmt;
use std::fmt::{Display, Formatter};

// The channel whose unit is shown, and how many octets such a unit has on the way, and how many of them were repaired.
const CHANNEL: ChannelNumber = ChannelNumber(1);

const OCTETS: usize = 25;

const REPAIRED: usize = 2;

// A unit as it came and as it was repaired, and the places, which rise, of the octets that were repaired.
#[derive(Clone, Copy)]
pub(crate) struct Example {
    received: [u8; OCTETS],
    repaired: [u8; OCTETS],
    places: [u8; REPAIRED],
}

impl Example {
    // The unit, if it is one to show, repaired once more.
    pub(crate) fn of(plan: &Plan, word: &[u8], verdict: Verdict) -> Option<Self> {
        let Layer::Al1m { width, repairs } = plan.layer else {
            return None;
        };
        if plan.channel != CHANNEL || verdict.repaired != REPAIRED {
            return None;
        }
        let mut repaired = [0u8; OCTETS];
        let mut places = [0u8; REPAIRED];
        let received = <[u8; OCTETS]>::try_from(word).ok()?;
        al1m::receive(word, width, repairs, &mut repaired, &mut places).ok()?;
        Some(Example {
            received,
            repaired,
            places,
        })
    }
}

// A line of octets in hex, each behind a space.
#[derive(Clone, Copy)]
struct Spaced<'a>(&'a [u8]);

impl Display for Spaced<'_> {
    fn fmt<W: fmt::Write>(&self, f: &mut Formatter<W>) -> fmt::Result {
        for octet in self.0 {
            write!(f, " {octet:02X}")?;
        }
        Ok(())
    }
}

// Marks below the octets of such a line: below each at one of the places, up to the last.
#[derive(Clone, Copy)]
struct Marks<'a>(&'a [u8]);

impl Display for Marks<'_> {
    fn fmt<W: fmt::Write>(&self, f: &mut Formatter<W>) -> fmt::Result {
        let Some(last) = self.0.last() else {
            return Ok(());
        };
        for place in 0..=*last {
            f.write_str(if self.0.contains(&place) {
                " ^^"
            } else {
                "   "
            })?;
        }
        Ok(())
    }
}

// The received word, the repaired one and the marks.
impl Display for Example {
    fn fmt<W: fmt::Write>(&self, f: &mut Formatter<W>) -> fmt::Result {
        writeln!(
            f,
            "A damaged unit of channel {}: the octets at places {}, counted from 0, were repaired.\n",
            CHANNEL.0,
            List(&self.places)
        )?;
        writeln!(f, "  received{}", Spaced(&self.received))?;
        writeln!(f, "  repaired{}", Spaced(&self.repaired))?;
        writeln!(f, "          {}", Marks(&self.places))
    }
}
