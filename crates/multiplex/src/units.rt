// The list that the demultiplexer writes of its finished units: three numbers to a unit. (Numbers, and no list of units: the claims
// FitsExactly, StartsAre and ListRead speak of the numbers that stand in it.)
ghost use Rattle.std.specs.Prelude.{◌≡◌};
ghost use Rattle.multiplex.specs.Units.{unit_at, enough_output, enough_units};

use channels::{ChannelNumber, PLACE_OCTETS};
use table::LONGEST_PAYLOAD;

// An output of so many octets is never too small for a payload that the other end made: a unit that was held, and the payload's other
// octets.
pub const ENOUGH_OUTPUT: usize = PLACE_OCTETS + LONGEST_PAYLOAD;

// .. nor a list of so many numbers: each octet of a payload may be a unit.
pub const ENOUGH_UNITS: usize = 3 * LONGEST_PAYLOAD;

// That is what the definitions say.
pub fn enough_output() -> usize
    ensures { result ≡ enough_output }
{
    ENOUGH_OUTPUT
}

pub fn enough_units() -> usize
    ensures { result ≡ enough_units }
{
    ENOUGH_UNITS
}

// A finished unit: the number of its channel, and where in the output it starts and how long it is.
#[derive(Clone, Copy, Debug, PartialEq, Eq)]
pub struct Unit {
    pub channel: ChannelNumber,
    pub start: usize,
    pub length: usize,
}

// Unit j of a list, counted from 0, if the list goes so far.
#[tactic(auto, unfolding(crate::specs::Units::unit_at))]
pub fn unit_at(units: &[u16], j: usize) -> Option<Unit>
    ensures { result ≡ unit_at units.now j }
{
    if units.len() / 3 <= j {
        return None;
    }
    Some(Unit {
        channel: ChannelNumber(units[3 * j]),
        start: usize::from(units[3 * j + 1]),
        length: usize::from(units[3 * j + 2]),
    })
}
