// A channel's place in the trailer: what is known of the channel as its units are gone through, and the place's octets.
ghost use Rattle.std.specs.Prelude.{◌≡◌, ◌<◌};
ghost use Rattle.record.specs.Layout.{no_offset};
ghost use Rattle.record.specs.Walk.{fresh, noted, place_octets};

use crate::unit::{CHECK_FAILED, OUT_OF_REACH};

pub const PLACE_OCTETS: usize = 14;

// Before any unit there is none to point to.
const NO_OFFSET: u32 = u32::MAX;

// A channel's place: the offset of its last unit, its units, and those with badge 2 or 3.
#[derive(Clone, Copy)]
pub struct Place {
    pub channel: u16,
    last: u32,
    units: u32,
    damaged: u32,
}

impl Place {
    // The channel's place before any unit of it; of channel 0 also one that is not used.
    pub fn of(channel: u16) -> Place
        ensures { result ≡ fresh channel }
    {
        Place {
            channel,
            last: NO_OFFSET,
            units: 0,
            damaged: 0,
        }
    }

    // Notes one unit more, at offset `at`; answers the offset of the one before it.
    pub fn note(&mut self, at: u32, badge: u16) -> u32
        requires { (self.old.units < no_offset) × (self.old.damaged < no_offset) }
        ensures { (result ≡ self.old.last) × (self.new ≡ noted self.old at badge) }
    {
        let before = self.last;
        self.last = at;
        self.units += 1;
        if badge == OUT_OF_REACH || badge == CHECK_FAILED {
            self.damaged += 1;
        }
        before
    }

    // The place's octets in the trailer.
    pub fn octets(&self) -> [u8; PLACE_OCTETS]
        ensures { result ≡ place_octets self.now }
    {
        let mut octets = [0; PLACE_OCTETS];
        octets::write(&mut octets, 0, &self.channel.to_be_bytes());
        octets::write(&mut octets, 2, &self.last.to_be_bytes());
        octets::write(&mut octets, 6, &self.units.to_be_bytes());
        octets::write(&mut octets, 10, &self.damaged.to_be_bytes());
        octets
    }
}
