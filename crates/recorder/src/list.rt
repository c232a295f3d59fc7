// The units of a list, as many as the lent buffers hold, and what the library answers for the whole list. The buffers hold more than a
// record can, so a list with a unit that does not fit is past the limit, and is refused: 15 and 12 come before 2, and are asked of what is
// known of every unit.
use crate::line::Unit;
use calls::Refusal;

// The channels that are kept of a list: one more than a record may have.
const CHANNELS: usize = 17;

// The buffers, as the library takes them, and how many units and octets stand in them; the channels that all units have; whether a unit
// is out of range; and whether one did not fit. (No heap; and `record::write` takes the units' numbers and their octets so.)
#[derive(Drop)]
pub struct List<'a> {
    numbers: &'a mut [u16],
    content: &'a mut [u8],
    units: usize,
    octets: usize,
    channels: [u16; CHANNELS],
    seen: usize,
    out_of_range: bool,
    past: bool,
}

// The numbers of the first n units, or all where there are fewer.
pub fn first(numbers: &[u16], n: usize) -> &[u16] {
    &numbers[..numbers.len().min(n.saturating_mul(4))]
}

// What the library refuses where there is no room: 3 where there is nothing else to refuse.
fn refusal(numbers: &[u16], content: &[u8]) -> Refusal {
    match record::write(numbers, content, &mut [0; 1]) {
        Ok(_) => Refusal::NoRoom,
        Err(refusal) => refusal,
    }
}

impl<'a> List<'a> {
    // No units.
    pub fn new(numbers: &'a mut [u16], content: &'a mut [u8]) -> List<'a> {
        List {
            numbers,
            content,
            units: 0,
            octets: 0,
            channels: [0; CHANNELS],
            seen: 0,
            out_of_range: false,
            past: false,
        }
    }

    // How many units stand in the buffers.
    pub fn units(&self) -> usize {
        self.units
    }

    // Keeps a channel, if it is new and there is room.
    fn see(&mut self, channel: u16) {
        if self.seen < CHANNELS && !self.channels[..self.seen].contains(&channel) {
            self.channels[self.seen] = channel;
            self.seen += 1;
        }
    }

    // Puts a unit behind those that are in the buffers, if there is room.
    fn keep(&mut self, four: &[u16; 4], octets: &[u8]) -> Option<()> {
        let numbers = self.numbers.get_mut(self.units.checked_mul(4)?..)?;
        numbers.get_mut(..4)?.copy_from_slice(four);
        let content = self.content.get_mut(self.octets..)?;
        content.get_mut(..octets.len())?.copy_from_slice(octets);
        self.units += 1;
        self.octets += octets.len();
        Some(())
    }

    // Takes one unit more.
    pub fn add(&mut self, unit: Unit<'_>) {
        let length = u16::try_from(unit.octets.len()).unwrap_or(u16::MAX);
        let four = [unit.channel, unit.badge, unit.changed, length];
        if refusal(&four, unit.octets) == Refusal::BadForm {
            self.out_of_range = true;
            return;
        }
        self.see(unit.channel);
        if self.keep(&four, unit.octets).is_none() {
            self.past = true;
        }
    }

    // What a list past the limit is refused with: clean units of one octet, one for each channel, are refused 12 if there are too many.
    fn past(&self) -> Refusal {
        let clean = [0u8; CHANNELS];
        let mut numbers = [0u16; 4 * CHANNELS];
        for (j, channel) in self.channels.iter().enumerate() {
            numbers[4 * j] = *channel;
            numbers[4 * j + 3] = 1;
        }
        let units = first(&numbers, self.seen);
        if refusal(units, octets::front(&clean, self.seen)) == Refusal::NoPlace {
            return Refusal::NoPlace;
        }
        Refusal::BadLength
    }

    // Writes the record of the whole list to the front of `output`, and tells how many octets it has.
    pub fn write(&self, output: &mut [u8]) -> Result<usize, Refusal> {
        if self.out_of_range {
            return Err(Refusal::BadForm);
        }
        if self.past {
            return Err(self.past());
        }
        let numbers = first(self.numbers, self.units);
        record::write(numbers, octets::front(self.content, self.octets), output)
    }
}
