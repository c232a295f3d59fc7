// AL2 by channel, and a finished unit read by its adaptation layer where it lies.
ghost use Rattle.std.specs.Prelude.{◌≡◌};
ghost use Rattle.adaptation.specs.AL1 as passing;
ghost use Rattle.adaptation.specs.Receiving.{Receives};
ghost use Rattle.channels.specs.Layers.{SendsOn, TakesOn};
ghost use Rattle.channels.specs.Parts.{part_at};

use crate::{ChannelNumber, Channels};
use adaptation::al1m::Judgement;
use adaptation::al2::Delivery;
use adaptation::{Badge, al1, al1m, al2};
use calls::Refusal;

impl Channels {
    // Puts a unit into the front of out, as AL2 sends it on a channel: refusals 5, 2, 3.
    #[tactic(auto, unfolding(crate::specs::Layers::sending))]
    pub fn send(
        &mut self,
        number: ChannelNumber,
        numbered: bool,
        unit: &[u8],
        out: &mut [u8],
    ) -> Result<usize, Refusal>
        ensures { SendsOn self.old number.0 numbered unit.now out.old result self.new out.new }
    {
        let p = self.place_of(number).ok_or(Refusal::NotOpen)?;
        let numbers = self.at[p].numbers;
        let octets = al2::send(al2::number_as(numbered, numbers), unit, out)?;
        self.at[p].numbers = al2::rise(numbered, numbers);
        Ok(octets)
    }

    // Receives an AL2 unit on a channel, and keeps what is due next: refusals 5, 2. The unit that is handed up is what al2's `unit`
    // returns.
    #[tactic(auto, unfolding(crate::specs::Layers::taking))]
    pub fn take(
        &mut self,
        number: ChannelNumber,
        numbered: bool,
        whole: &[u8],
    ) -> Result<Option<Delivery>, Refusal>
        ensures { TakesOn self.old number.0 numbered whole.now result self.new }
    {
        let p = self.place_of(number).ok_or(Refusal::NotOpen)?;
        let due = self.at[p].numbers.due;
        let received = al2::receive(whole, numbered, due)?;
        self.at[p].numbers.due = received.map_or(due, |delivery| delivery.due);
        Ok(received)
    }

    // A finished unit received by AL2 on its channel: refusals 5, 2.
    pub fn al2_at(
        &mut self,
        number: ChannelNumber,
        numbered: bool,
        output: &[u8],
        start: usize,
        length: usize,
    ) -> Result<Option<Delivery>, Refusal>
        ensures { TakesOn self.old number.0 numbered (part_at output.now start length) result self.new }
    {
        self.take(number, numbered, unit_at(output, start, length))
    }
}

// The part of output with a finished unit, where the demultiplexer says it lies; an empty part, where that is not within output.
#[tactic(auto, unfolding(crate::specs::Parts::part_at))]
pub fn unit_at(output: &[u8], start: usize, length: usize) -> &[u8]
    ensures { result.now ≡ part_at output.now start length }
{
    if output.len() < start || output.len() - start < length {
        return &[];
    }
    &output[start..start + length]
}

// A finished unit passed by AL1: refusal 2.
pub fn al1_at(output: &[u8], start: usize, length: usize) -> Result<Badge, Refusal>
    ensures { passing.passed_says result (part_at output.now start length) ≡ passing.passed (part_at output.now start length) }
{
    al1::pass(unit_at(output, start, length))
}

// A finished unit received by AL1M: refusals 1, 2, 3.
pub fn al1m_at(
    output: &[u8],
    start: usize,
    length: usize,
    width: u32,
    e: u32,
    repair: &mut [u8],
    places: &mut [u8],
) -> Result<Judgement, Refusal>
    ensures { Receives width e (part_at output.now start length) (record { repair = repair.old; places = places.old }) result
        (record { repair = repair.new; places = places.new }) }
{
    al1m::receive(unit_at(output, start, length), width, e, repair, places)
}
