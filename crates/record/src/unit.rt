// A unit of a record: its numbers and their ranges, and its header as it is written and as it is read.
ghost use Rattle.std.specs.Prelude.{◌≡◌, true, ◌++◌, ◌↔◌, ◌+◌, ◌≤◌, length, take};
ghost use Rattle.octets.specs.Written.{written};
ghost use Rattle.record.specs.Recorded.{Changed, Ranges};
ghost use Rattle.record.specs.Layout as layout;
ghost use Rattle.record.specs.Walk.{numbers_in, head, HeaderIs};

pub const HEADER_OCTETS: usize = 10;

// A unit's four numbers, as it is lent.
pub const NUMBERS: usize = 4;

// Badges are numbers here, since C lends them among the others, and any may come: that of a corrected unit, of one out of reach, of one
// whose check failed, and the highest.
const CORRECTED: u16 = 1;

pub const OUT_OF_REACH: u16 = 2;

pub const CHECK_FAILED: u16 = 3;

const UNCHECKED: u16 = 4;

const MOST_CHANGED: u16 = 127;

const LONGEST_RECORDED: u16 = 1024;

// A unit in numbers.
#[derive(Clone, Copy)]
pub struct Numbers {
    pub channel: u16,
    pub badge: u16,
    pub changed: u16,
    pub length: u16,
}

impl Numbers {
    // The numbers that stand in four of a list. No `From`, which asks for nothing: not every slice has four.
    pub fn of(four: &[u16]) -> Numbers
        requires { length four.now ≡ 4 }
        ensures { four.now ≡ numbers_in result }
    {
        Numbers {
            channel: four[0],
            badge: four[1],
            changed: four[2],
            length: four[3],
        }
    }

    // Whether the changed count goes with the badge.
    fn is_changed(&self) -> bool
        ensures { result ≡ true ↔ Changed self.now.badge self.now.changed }
    {
        match self.badge {
            CORRECTED => (1..=MOST_CHANGED).contains(&self.changed),
            CHECK_FAILED => self.changed <= MOST_CHANGED,
            _ => self.changed == 0,
        }
    }

    // Whether badge, changed count and length are in their ranges.
    pub fn are_in_range(&self) -> bool
        ensures { result ≡ true ↔ Ranges self.now.badge self.now.changed self.now.length }
    {
        self.badge <= UNCHECKED
            && (1..=LONGEST_RECORDED).contains(&self.length)
            && self.is_changed()
    }
}

// The four, as they stand in a list.
impl From<Numbers> for [u16; NUMBERS] {
    ghost from_gives = { λ v four. four ≡ numbers_in v };

    fn from(numbers: Numbers) -> [u16; NUMBERS] {
        [
            numbers.channel,
            numbers.badge,
            numbers.changed,
            numbers.length,
        ]
    }
}

// The header before a unit's octets: its numbers, and the offset of its channel's previous unit.
#[derive(Clone, Copy)]
pub struct Header {
    pub numbers: Numbers,
    pub back: u32,
}

impl Header {
    // The header's ten octets.
    fn octets(&self) -> [u8; HEADER_OCTETS]
        ensures { result ≡ head self.now }
    {
        let numbers = self.numbers;
        let mut octets = [0; HEADER_OCTETS];
        octets::write(&mut octets, 0, &numbers.channel.to_be_bytes());
        octets[2] = (numbers.badge % 256) as u8;
        octets[3] = (numbers.changed % 256) as u8;
        octets::write(&mut octets, 4, &numbers.length.to_be_bytes());
        octets::write(&mut octets, 6, &self.back.to_be_bytes());
        octets
    }

    // The header at the front of the octets.
    pub fn read(s: &[u8]) -> Header
        requires { layout.header_octets ≤ length s.now }
        ensures { HeaderIs (take layout.header_octets s.now) result }
    {
        Header {
            numbers: Numbers {
                channel: octets::two(s, 0),
                badge: s[2] as u16,
                changed: s[3] as u16,
                length: octets::two(s, 4),
            },
            back: octets::four(s, 6),
        }
    }

    // Writes a unit at `to`: the header, and the unit's octets behind it.
    pub fn put(&self, output: &mut [u8], to: usize, own: &[u8])
        requires { to + layout.header_octets + length own.now ≤ length output.old }
        ensures { output.new ≡ written output.old to (head self.now ++ own.now) }
    {
        octets::write(output, to, &self.octets());
        octets::write(output, to + HEADER_OCTETS, own);
    }
}
