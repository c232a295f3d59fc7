// Where channels are: searches by number, for one and for all slots of a payload.
ghost use Rattle.std.specs.Prelude.{◌≡◌, map, eqb, position};
ghost use Rattle.channels.specs.Channels.{place_of, all_open, free_place};
ghost use Rattle.channels.specs.Places.{number_of, place_in, free_in};

use crate::{Channel, ChannelNumber, Channels, PLACES};
use std::array;

// What no channel has as its number.
const NO_NUMBER: u32 = 65536;

// A channel's number as a search knows it; where none is open, one that no channel has.
fn number_of(c: &Channel) -> u32
    ensures { result ≡ number_of c.now }
{
    if c.open {
        u32::from(c.number.0)
    } else {
        NO_NUMBER
    }
}

// The first place of a number, if it is there.
pub fn seek(numbers: &[u32], n: u32) -> Option<usize>
    ensures { result ≡ position (λ m. eqb m n) numbers.now }
{
    numbers.iter().position(|m| *m == n)
}

impl Channels {
    // The numbers by place: of many searches, each goes over 16 numbers in a row and not over the channels.
    pub fn numbers(&self) -> [u32; PLACES]
        ensures { result ≡ map number_of self.now.at }
    {
        array::from_fn(|k| number_of(&self.at[k]))
    }

    // The place of an open channel, if it is open.
    #[tactic(auto, using(crate::proofs::Placing::sought_in))]
    pub fn place_of(&self, number: ChannelNumber) -> Option<usize>
        ensures { result ≡ place_in self.now number.0 }
    {
        self.at.iter().position(|c| c.open && c.number == number)
    }

    // The first free place, if there is one.
    #[tactic(auto, using(crate::proofs::Placing::freed_in))]
    pub fn free_place(&self) -> Option<usize>
        ensures { result ≡ free_in self.now }
    {
        self.at.iter().position(|c| !c.open)
    }

    // Puts each channel's place instead of its number, and tells whether all of them are open.
    pub fn find(&self, numbers: &mut [u16]) -> bool
        ensures { (result ≡ all_open self.now numbers.old) × (numbers.new ≡ map (place_of self.now) numbers.old) }
    {
        let seats = self.numbers();
        let mut all = true;
        for n in numbers.iter_mut() {
            let p = seek(&seats, u32::from(*n)).unwrap_or(PLACES);
            all &= p < PLACES;
            *n = p as u16;
        }
        all
    }
}
