// The places of a list of channels, ascending, as the trailer has them: the used ones, then those that are not used.
ghost use Rattle.std.specs.Prelude.{◌≡◌, ◌≤◌};

use crate::place::{PLACE_OCTETS, Place};
use calls::Refusal;

pub const MOST_CHANNELS: usize = 16;

// Where the trailer has the number of units, that of the octets before it, and the mark.
const UNITS_AT: usize = PLACE_OCTETS * MOST_CHANNELS;

const BEFORE_AT: usize = UNITS_AT + 4;

const MARK_AT: usize = BEFORE_AT + 4;

pub const TRAILER_OCTETS: usize = MARK_AT + 4;

// The places, the used ones first and ascending. No heap: there is room for as many as the trailer has, and `count` are used.
#[derive(Clone, Copy)]
pub struct Places {
    count: usize,
    all: [Place; MOST_CHANNELS],
    ghost few: { count ≤ 16 },
}

impl Places {
    ghost use Rattle.std.specs.Prelude.{[]};
    ghost use Rattle.record.specs.Walk.{rank_in, place_in, noted_in, PlacesAre, Inserts, CanNote, trailer_from};

    // No channels.
    pub fn none() -> Places
        ensures { PlacesAre [] [] result }
    {
        Places {
            count: 0,
            all: [Place::of(0); MOST_CHANNELS],
        }
    }

    // How many used places stand before the first whose channel is not below this one: the channel's own, if it has one.
    fn rank(&self, channel: u16) -> usize
        ensures is { result ≡ rank_in self.now channel }
        ensures within { result ≤ self.now.count }
    {
        self.all[..self.count]
            .iter()
            .position(|place| channel <= place.channel)
            .unwrap_or(self.count)
    }

    // Gives the channel a place, if it has none; a seventeenth channel gets none.
    pub fn insert(&mut self, channel: u16) -> Result<(), Refusal>
        ensures { Inserts self.old channel result self.new }
    {
        let i = self.rank(channel);
        if i < self.count && self.all[i].channel == channel {
            return Ok(());
        }
        if self.count == MOST_CHANNELS {
            return Err(Refusal::NoPlace);
        }
        self.all.copy_within(i..self.count, i + 1);
        self.all[i] = Place::of(channel);
        self.count += 1;
        Ok(())
    }

    // Notes one unit more of a channel that has a place, at offset `at`; answers the offset of the channel's unit before it.
    pub fn note(&mut self, channel: u16, at: u32, badge: u16) -> u32
        requires { CanNote self.old channel }
        ensures { (result ≡ (place_in self.old channel).last) × (self.new.count ≡ self.old.count)
            × (self.new.all ≡ noted_in self.old channel at badge) }
    {
        let i = self.rank(channel);
        self.all[i].note(at, badge)
    }

    // The trailer of so many units in so many octets.
    pub fn trailer(&self, units: u32, before: u32) -> [u8; TRAILER_OCTETS]
        ensures { result ≡ trailer_from self.now units before }
    {
        let mut trailer = [0; TRAILER_OCTETS];
        for (j, place) in self.all.iter().enumerate() {
            octets::write(&mut trailer, PLACE_OCTETS * j, &place.octets());
        }
        octets::write(&mut trailer, UNITS_AT, &units.to_be_bytes());
        octets::write(&mut trailer, BEFORE_AT, &before.to_be_bytes());
        octets::write(&mut trailer, MARK_AT, b"H223");
        trailer
    }
}
