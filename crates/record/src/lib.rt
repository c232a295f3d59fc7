// The nightly call record (document 02, ticket 1): units in order, then a trailer.
#![tactic(auto)]

mod place; // place.rt: what is known of a channel, at its place in the trailer
mod places; // places.rt: the places of a list's channels, and the trailer made of them
mod reader; // reader.rt: the walks over a record
mod unit; // unit.rt: a unit's numbers, their ranges, and its header
mod writer; // writer.rt: a list of units as it is lent, and the walks over it

ghost use Rattle.calls.specs.Refusal.{ended, says};
ghost use Rattle.record.specs.Call.{Writes, Reads};

use crate::places::TRAILER_OCTETS;
use crate::unit::{HEADER_OCTETS, NUMBERS};
use crate::writer::Lent;
use calls::Refusal;

// The octets of the longest record: those before the trailer, and the trailer.
pub const LONGEST_RECORD: usize = writer::MOST_BEFORE + TRAILER_OCTETS;

// Writes the record of the units to the front of `output`, and answers how many octets it has: refusals 15, 12, 2, 3. A unit is four
// of the numbers (channel, badge, changed count, length); the units' octets stand one behind another in `content`.
pub fn write(numbers: &[u16], content: &[u8], output: &mut [u8]) -> Result<usize, Refusal>
    ensures { Writes numbers.now content.now output.old (ended (says result) output.new) }
{
    let lent = Lent::of(numbers, content).ok_or(Refusal::BadForm)?;
    let mut places = lent.places()?;
    let before = lent.octets()?;
    if output.len() < before + TRAILER_OCTETS {
        return Err(Refusal::NoRoom);
    }
    lent.write(&mut places, output);
    let trailer = places.trailer(lent.units() as u32, before as u32);
    octets::write(output, before, &trailer);
    Ok(before + TRAILER_OCTETS)
}

// Reads a record: its units' numbers to the front of `numbers`, their octets to the front of `content`; answers how many units there
// are. Refusals 15, 3.
pub fn read(input: &[u8], numbers: &mut [u16], content: &mut [u8]) -> Result<usize, Refusal>
    ensures { Reads input.now (record { numbers = numbers.old; octets = content.old })
        (ended (says result) (record { numbers = numbers.new; octets = content.new })) }
{
    let count = reader::find(input).ok_or(Refusal::BadForm)?;
    let before = input.len() - TRAILER_OCTETS;
    if numbers.len() / NUMBERS < count || content.len() < before - HEADER_OCTETS * count {
        return Err(Refusal::NoRoom);
    }
    reader::deliver(&input[..before], count, numbers, content);
    Ok(count)
}
