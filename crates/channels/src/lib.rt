// The channels: small state, and beside it, lent, the octets that are held and those that wait.
#![tactic(auto)]

pub mod layers; // layers.rt: AL2 by channel, and a finished unit read where it lies
pub mod places; // places.rt: where channels are

ghost use Rattle.std.specs.Prelude.{◌≡◌};
ghost use Rattle.calls.specs.Refusal.{ended, says};
ghost use Rattle.channels.specs.Channels as the;
ghost use Rattle.channels.specs.Channels.{start, opened, closed, reset, Posts};

use adaptation::al2;
use adaptation::al2::Numbers;
use calls::Refusal;

// How many channels may be open.
pub const PLACES: usize = 16;

// The octets of a place: the most that a channel may hold, and the most that may wait there.
pub const PLACE_OCTETS: usize = 1024;

// The octets of all the places.
pub const ALL_OCTETS: usize = PLACES * PLACE_OCTETS;

// A channel's number. It is no multiplex code.
#[derive(Clone, Copy, Debug, PartialEq, Eq)]
pub struct ChannelNumber(pub u16);

// One place: whether a channel is open there, and what the calls have to know of it. (No Option of a channel: the claims StartIs, Seated and
// Orderly say of a free place too that nothing is held and nothing waits there.)
#[derive(Clone, Copy)]
pub struct Channel {
    pub open: bool,
    pub segmentable: bool,
    pub number: ChannelNumber,
    pub held: u16,
    pub waiting: u16,
    pub numbers: Numbers,
}

#[derive(Clone, Copy)]
pub struct Channels {
    pub at: [Channel; PLACES],
}

impl Channel {
    // A place that is free.
    fn vacant() -> Channel
        ensures { result ≡ the.vacant }
    {
        Channel {
            open: false,
            segmentable: false,
            number: ChannelNumber(0),
            held: 0,
            waiting: 0,
            numbers: al2::first_numbers(),
        }
    }

    // A channel just opened.
    fn fresh(number: ChannelNumber, segmentable: bool) -> Channel
        ensures { result ≡ the.fresh number.0 segmentable }
    {
        Channel {
            open: true,
            segmentable,
            number,
            ..Channel::vacant()
        }
    }
}

impl Channels {
    // The channels at first: channel 0 is open.
    #[tactic(auto, unfolding(crate::specs::Channels::start))]
    pub fn new() -> Channels
        ensures { result ≡ start }
    {
        let mut at = [Channel::vacant(); PLACES];
        at[0] = Channel::fresh(ChannelNumber(0), true);
        Channels { at }
    }

    // Opens a channel: refusals 13, 12.
    #[tactic(auto, unfolding(crate::specs::Channels::opened))]
    pub fn open(&mut self, number: ChannelNumber, segmentable: bool) -> Result<(), Refusal>
        ensures { ended (says result) self.new ≡ opened self.old number.0 segmentable }
    {
        if self.place_of(number).is_some() {
            return Err(Refusal::AlreadyOpen);
        }
        let free = self.free_place().ok_or(Refusal::NoPlace)?;
        self.at[free] = Channel::fresh(number, segmentable);
        Ok(())
    }

    // Closes a channel, and drops what it holds and what waits there: refusals 5, 14.
    #[tactic(auto, unfolding(crate::specs::Channels::closed))]
    pub fn close(&mut self, number: ChannelNumber) -> Result<(), Refusal>
        ensures { ended (says result) self.new ≡ closed self.old number.0 }
    {
        let p = self.place_of(number).ok_or(Refusal::NotOpen)?;
        if number == ChannelNumber(0) {
            return Err(Refusal::Fixed);
        }
        self.at[p] = Channel::vacant();
        Ok(())
    }

    // Drops what a channel holds and starts its AL2 numbers again, the count of failed units among them; what waits stays: refusal 5.
    #[tactic(auto, unfolding(crate::specs::Channels::reset))]
    pub fn restart(&mut self, number: ChannelNumber) -> Result<(), Refusal>
        ensures { ended (says result) self.new ≡ reset self.old number.0 }
    {
        let p = self.place_of(number).ok_or(Refusal::NotOpen)?;
        let c = &mut self.at[p];
        c.held = 0;
        c.numbers = al2::first_numbers();
        Ok(())
    }

    // Lets a unit wait on a channel to be sent: refusals 2, 5, 11.
    #[tactic(auto, unfolding(crate::specs::Channels::posted))]
    pub fn post(
        &mut self,
        waiting: &mut [u8; ALL_OCTETS],
        number: ChannelNumber,
        unit: &[u8],
    ) -> Result<(), Refusal>
        ensures { Posts self.old waiting.old number.0 unit.now result self.new waiting.new }
    {
        let t = unit.len();
        if t == 0 || PLACE_OCTETS < t {
            return Err(Refusal::BadLength);
        }
        let p = self.place_of(number).ok_or(Refusal::NotOpen)?;
        if 0 < self.at[p].waiting {
            return Err(Refusal::AlreadyWaiting);
        }
        octets::write(waiting, PLACE_OCTETS * p + (PLACE_OCTETS - t), unit);
        self.at[p].waiting = t as u16;
        Ok(())
    }
}
