// A list of units as it is lent: whether it is one, which channels it has, how many octets it takes, and its units as they are written.
ghost use Rattle.std.specs.Prelude.{◌≡◌, ◌/◌, ◌%◌, length};

use crate::places::Places;
use crate::unit::{HEADER_OCTETS, Header, NUMBERS, Numbers};
use calls::Refusal;

pub const MOST_BEFORE: usize = 1048576;

// Numbers and octets that are those of units in range: four numbers to a unit, and the units' octets, one unit behind another.
#[derive(Clone, Copy)]
pub struct Lent<'a> {
    numbers: &'a [u16],
    content: &'a [u8],
    ghost whole: { length numbers.now % 4 ≡ 0 },
}

impl<'a> Lent<'a> {
    ghost use Rattle.record.specs.Walk.{LentIs, PlacesBy, Before, Ready, Wrote};

    // The list, if it is one.
    pub fn of(numbers: &'a [u16], content: &'a [u8]) -> Option<Lent<'a>>
        ensures { LentIs numbers.now content.now result }
    {
        if numbers.len() % NUMBERS != 0 {
            return None;
        }
        let mut left = content.len();
        for four in numbers.chunks_exact(NUMBERS) {
            let unit = Numbers::of(four);
            let length = unit.length as usize;
            if !unit.are_in_range() || left < length {
                return None;
            }
            left -= length;
        }
        if left != 0 {
            return None;
        }
        Some(Lent { numbers, content })
    }

    // How many units there are.
    pub fn units(&self) -> usize
        ensures { result ≡ length self.now.numbers.now / 4 }
    {
        self.numbers.len() / NUMBERS
    }

    // The channels of the units, each with a place, or that they are more than there are places.
    pub fn places(&self) -> Result<Places, Refusal>
        ensures { PlacesBy self.now.numbers.now result }
    {
        let mut places = Places::none();
        for four in self.numbers.chunks_exact(NUMBERS) {
            places.insert(four[0])?;
        }
        Ok(places)
    }

    // The octets that the units take, or that they are more than may stand before a trailer.
    pub fn octets(&self) -> Result<usize, Refusal>
        ensures { Before self.now.numbers.now self.now.content.now result }
    {
        let before = self
            .units()
            .saturating_mul(HEADER_OCTETS)
            .saturating_add(self.content.len());
        if MOST_BEFORE < before {
            return Err(Refusal::BadLength);
        }
        Ok(before)
    }

    // Writes the units, each behind the one before it, from the front of `output`, and notes each at its channel's place.
    pub fn write(&self, places: &mut Places, output: &mut [u8])
        requires { Ready self.now.numbers.now self.now.content.now places.old (length output.old) }
        ensures { Wrote self.now.numbers.now self.now.content.now output.old output.new places.new }
    {
        let mut left = self.content;
        let mut to = 0;
        for four in self.numbers.chunks_exact(NUMBERS) {
            let unit = Numbers::of(four);
            let (own, behind) = left.split_at(unit.length as usize);
            let back = places.note(unit.channel, to as u32, unit.badge);
            let header = Header {
                numbers: unit,
                back,
            };
            header.put(output, to, own);
            to += HEADER_OCTETS + own.len();
            left = behind;
        }
    }
}
