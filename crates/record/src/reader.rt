// The walks over a record: whether it has the form, and what its units are.
ghost use Rattle.std.specs.Prelude.{◌≡◌, ◌+◌, ◌≤◌, length};
ghost use Rattle.record.specs.Trailer.{most_before};
ghost use Rattle.record.specs.Walk.{SurveyIs, Surveyed, CheckedIs, FoundIs, Deliverable, Delivered};

use crate::places::{Places, TRAILER_OCTETS};
use crate::unit::{HEADER_OCTETS, Header, NUMBERS};
use crate::writer::MOST_BEFORE;

// Of octets before a trailer that are units: how many, and the places of their channels.
#[derive(Clone, Copy)]
struct Survey {
    units: u32,
    places: Places,
}

// Goes through the octets before a trailer, unit by unit, whatever their back offsets: nothing where they are not units.
fn surveyed(body: &[u8]) -> Option<Survey>
    requires { length body.now ≤ most_before }
    ensures { SurveyIs body.now result }
{
    let mut places = Places::none();
    let mut units = 0;
    let mut at = 0;
    // A unit's length stands in its header, so that no iterator of the library cuts the octets into units.
    while at < body.len() {
        if body.len() - at < HEADER_OCTETS {
            return None;
        }
        let numbers = Header::read(&body[at..]).numbers;
        let next = at + HEADER_OCTETS + numbers.length as usize;
        if !numbers.are_in_range() || body.len() < next {
            return None;
        }
        places.insert(numbers.channel).ok()?;
        units += 1;
        at = next;
    }
    Some(Survey { units, places })
}

// Goes through them again, and compares each back offset with the one that its channel's last unit has: what there is to tell of the
// channels, where all are right.
fn compared(body: &[u8], places: Places) -> Option<Places>
    requires { Surveyed body.now places }
    ensures { CheckedIs body.now result }
{
    let mut places = places;
    let mut at = 0;
    // By the length in each header, as above; the places know a unit by its offset.
    while at < body.len() {
        let header = Header::read(&body[at..]);
        let numbers = header.numbers;
        let back = places.note(numbers.channel, at as u32, numbers.badge);
        if back != header.back {
            return None;
        }
        at += HEADER_OCTETS + numbers.length as usize;
    }
    Some(places)
}

// How many units the octets have, if they are a record: its units are, its back offsets are right, and its trailer is the one that
// would be written.
pub fn find(input: &[u8]) -> Option<usize>
    ensures { FoundIs input.now result }
{
    let before = input.len().checked_sub(TRAILER_OCTETS)?;
    if MOST_BEFORE < before {
        return None;
    }
    let body = &input[..before];
    let seen = surveyed(body)?;
    let places = compared(body, seen.places)?;
    let end = places.trailer(seen.units, before as u32);
    if octets::same(&input[before..], &end) {
        return Some(seen.units as usize);
    }
    None
}

// Writes the numbers and the octets of so many units.
pub fn deliver(body: &[u8], count: usize, numbers: &mut [u16], content: &mut [u8])
    requires { Deliverable body.now count numbers.old content.old }
    ensures { Delivered body.now numbers.old content.old numbers.new content.new }
{
    let mut left = body;
    let mut to = 0;
    for k in 0..count {
        let unit = Header::read(left).numbers;
        let (_, behind) = left.split_at(HEADER_OCTETS);
        let (own, behind) = behind.split_at(unit.length as usize);
        let four: [u16; NUMBERS] = unit.into();
        octets::write(numbers, NUMBERS * k, &four);
        octets::write(content, to, own);
        to += own.len();
        left = behind;
    }
}
