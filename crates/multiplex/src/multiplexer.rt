// The multiplexer: the walk first, by value; then the writes. The slots stand in two lists, as in demultiplexer.rt.
ghost use Rattle.std.specs.Prelude.{◌≡◌, ◌-◌, ◌≤◌, length, take};
ghost use Rattle.octets.specs.Written.{written};
ghost use Rattle.channels.specs.Channels as the;
ghost use Rattle.multiplex.specs.Pieces.{laid};
ghost use Rattle.table.specs.Slots.{payload_slots};
ghost use Rattle.table.specs.Table.{highest_code, longest_payload, entry_of};
ghost use Rattle.multiplex.specs.Multiplexer.{walked, gathered, packed, multiplexed, makes, leaves_made};
ghost use Rattle.multiplex.specs.Walks.{turned, slotted, Walks, Gatherable, left_all};

use calls::Refusal;
use channels::places::seek;
use channels::{ALL_OCTETS, Channel, Channels, PLACE_OCTETS};
use table::{Code, LONGEST_PAYLOAD, TABLE_NUMBERS};

// How many octets a payload has, and its closing mark.
#[derive(Clone, Copy, Debug, PartialEq, Eq)]
pub struct Payload {
    pub octets: usize,
    pub mark: bool,
}

// What becomes of a slot: the walk stops before it; or it takes so many octets, and the walk goes on after it or ends there.
#[derive(Clone, Copy, Debug, PartialEq, Eq)]
enum Turn {
    Stop,
    On(usize),
    Last(usize),
}

// What a walk gives: how many pieces are sent, their octets, the closing mark, and the channels after it.
#[derive(Clone, Copy)]
struct Walked {
    count: usize,
    octets: usize,
    mark: bool,
    channels: Channels,
}

// How many octets wait at a channel.
fn waits(c: &Channel) -> usize
    ensures { result ≡ the.waits c.now }
{
    usize::from(c.waiting).min(PLACE_OCTETS)
}

// What becomes of a slot of a channel, by how many octets it has.
#[tactic(auto, unfolding(crate::specs::Walks::turned))]
fn turn_of(c: &Channel, slot: u16) -> Turn
    ensures { result ≡ turned c.now slot }
{
    let n = usize::from(slot);
    let w = waits(c);
    if w == 0 {
        return Turn::Stop;
    }
    if c.segmentable {
        if n < w {
            return Turn::On(n);
        }
        return Turn::Last(w);
    }
    if w == n {
        return Turn::On(w);
    }
    if w < n {
        return Turn::Last(w);
    }
    Turn::Stop
}

// Sends k of a channel's waiting octets.
fn leave(c: &mut Channel, k: usize)
    requires { k ≤ the.waits c.old }
    ensures { c.new ≡ the.waiting c.old (the.waits c.old - k) }
{
    c.waiting = (waits(c) - k) as u16;
}

// Walks over the first n slots, and puts the places and octets of the pieces that are sent instead of them; nothing, where a channel
// that it reaches is not open.
fn walk(s: &Channels, n: usize, numbers: &mut [u16], lengths: &mut [u16]) -> Option<Walked>
    requires { (n ≤ longest_payload) × (n ≤ length numbers.old) × (n ≤ length lengths.old) }
    ensures { Walks (walked s.now (slotted (take n numbers.old) (take n lengths.old))) result numbers.new lengths.new }
{
    let seats = s.numbers();
    let mut channels = *s;
    let mut octets = 0;
    for j in 0..n {
        let p = seek(&seats, u32::from(numbers[j]))?;
        let segmentable = channels.at[p].segmentable;
        match turn_of(&channels.at[p], lengths[j]) {
            Turn::Stop => {
                return Some(Walked {
                    count: j,
                    octets,
                    mark: false,
                    channels,
                });
            }
            Turn::On(k) => {
                leave(&mut channels.at[p], k);
                numbers[j] = p as u16;
                lengths[j] = k as u16;
                octets += k;
            }
            Turn::Last(k) => {
                leave(&mut channels.at[p], k);
                numbers[j] = p as u16;
                lengths[j] = k as u16;
                return Some(Walked {
                    count: j + 1,
                    octets: octets + k,
                    mark: segmentable,
                    channels,
                });
            }
        }
    }
    Some(Walked {
        count: n,
        octets,
        mark: false,
        channels,
    })
}

// Sends the pieces: writes their octets, of those that wait, to the front of payload.
fn gather(s: &mut Channels, waiting: &[u8], places: &[u16], lengths: &[u16], payload: &mut [u8])
    requires { Gatherable s.old waiting.now places.now lengths.now payload.old }
    ensures payload { payload.new ≡ written payload.old 0 (gathered s.old waiting.now (laid places.now lengths.now)) }
    ensures channels { s.new ≡ left_all s.old (laid places.now lengths.now) }
{
    let mut at = 0;
    for (place, octets) in places.iter().zip(lengths) {
        let p = usize::from(*place);
        let k = usize::from(*octets);
        let from = PLACE_OCTETS * p + (PLACE_OCTETS - waits(&s.at[p]));
        octets::write(payload, at, &waiting[from..from + k]);
        leave(&mut s.at[p], k);
        at += k;
    }
}

// Walks the slots of a payload of `room` octets, and writes what it sends: refusals 5, 9.
fn pack(
    s: &mut Channels,
    waiting: &[u8; ALL_OCTETS],
    table: &[u16; TABLE_NUMBERS],
    code: Code,
    room: usize,
    payload: &mut [u8],
) -> Result<Payload, Refusal>
    requires { (room ≤ longest_payload) × (code.0 ≤ highest_code) × (room ≤ length payload.old) }
    ensures { leaves_made result s.new payload
        ≡ packed (makes s.old payload) waiting.now (walked s.old (payload_slots (entry_of table.now code.0) room)) }
{
    let mut places = [0u16; LONGEST_PAYLOAD];
    let mut lengths = [0u16; LONGEST_PAYLOAD];
    let laid = table::payload_slots(table, code, room, &mut places, &mut lengths);
    let w = walk(s, laid.count, &mut places, &mut lengths).ok_or(Refusal::NotOpen)?;
    if w.octets == 0 {
        return Err(Refusal::NothingWaits);
    }
    gather(s, waiting, &places[..w.count], &lengths[..w.count], payload);
    Ok(Payload {
        octets: w.octets,
        mark: w.mark,
    })
}

// Lays out what waits as a payload of at most `room` octets at the front of payload: refusals 2, 4, 3, 5, 9.
#[tactic(auto, unfolding(crate::specs::Multiplexer::multiplexed, crate::specs::Multiplexer::packed, table::specs::Table::is_defined))]
pub fn multiplex(
    s: &mut Channels,
    waiting: &[u8; ALL_OCTETS],
    table: &[u16; TABLE_NUMBERS],
    code: Code,
    room: usize,
    payload: &mut [u8],
) -> Result<Payload, Refusal>
    ensures { leaves_made result s.new payload ≡ multiplexed (makes s.old payload) waiting.now table.now code.0 room }
{
    if LONGEST_PAYLOAD < room {
        return Err(Refusal::BadLength);
    }
    if !table::is_defined(table, code) {
        return Err(Refusal::NoEntry);
    }
    if payload.len() < room {
        return Err(Refusal::NoRoom);
    }
    pack(s, waiting, table, code, room, payload)
}
