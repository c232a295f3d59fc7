// The demultiplexer: every check first, by value; then the writes.
// Two lists of places and lengths, and no list of pieces: `table::payload_slots` lays two lists down (`LaysInto`), and `Channels::find` puts
// places into the one. What is held, the output and the list of units are three parameters: no plainer, since a struct that holds three
// `&mut` asks of each function here a clause more for each, that it is the caller's still.
ghost use Rattle.std.specs.Prelude.{◌≡◌, ℕ, ◌+◌, ◌*◌, ◌≤◌, ◌<◌, length, get_or};
ghost use Rattle.octets.specs.Written.{written};
ghost use Rattle.table.specs.Table.{highest_code, longest_payload};
ghost use Rattle.channels.specs.Channels.{place_count, all_octets, channel_at};
ghost use Rattle.multiplex.specs.Pieces.{laid};
ghost use Rattle.multiplex.specs.Demultiplexer.{room_in, delivered, sorted, demultiplexed, lent, hands_back};
ghost use Rattle.multiplex.specs.Tally.{begins, counts, ends, marked, InPlaces, Deliverable, DryRun, Puts, Takes, Pours, PouredBy};
ghost use Rattle.multiplex.specs.Tally.{slots_for, InRange, Countable, Notable, Closable, Finishes};
ghost use Rattle.multiplex.specs.Units.{listed};

use calls::Refusal;
use channels::{ALL_OCTETS, Channel, ChannelNumber, Channels, PLACE_OCTETS};
use table::{Code, LONGEST_PAYLOAD, TABLE_NUMBERS};

// How far a payload has led: the channels, and how many octets and units are finished.
#[derive(Clone, Copy)]
pub struct Tally {
    pub channels: Channels,
    pub octets: usize,
    pub units: usize,
}

// Whether n more octets may come to a channel.
fn has_room(c: &Channel, n: u16) -> bool
    ensures { result ≡ room_in c.now n }
{
    !c.segmentable || usize::from(c.held) + usize::from(n) <= PLACE_OCTETS
}

// Writes down a finished unit: its channel, start and length.
fn note(units: &mut [u16], at: usize, channel: ChannelNumber, start: usize, len: usize)
    requires { (at + 3 ≤ length units.old) × (start < 65536) × (len < 65536) }
    ensures { units.new ≡ written units.old at (listed channel.0 start len) }
{
    octets::write(units, at, &[channel.0, start as u16, len as u16]);
}

impl Tally {
    // No piece has come yet.
    fn new(channels: Channels) -> Tally
        ensures { result ≡ begins channels }
    {
        Tally {
            channels,
            octets: 0,
            units: 0,
        }
    }

    // Counts a piece of n octets at place p: a segmentable channel holds them, else they are a unit.
    fn add(&mut self, p: usize, n: u16)
        requires { Countable self.old p n }
        ensures { self.new ≡ counts self.old p n }
    {
        if self.channels.at[p].segmentable {
            self.channels.at[p].held += n;
        } else {
            self.octets += usize::from(n);
            self.units += 1;
        }
    }

    // Ends the unit that place p holds.
    fn close(&mut self, p: usize)
        requires { InRange self.old p }
        ensures { self.new ≡ ends self.old p }
    {
        self.octets += usize::from(self.channels.at[p].held);
        self.units += 1;
        self.channels.at[p].held = 0;
    }

    // Writes a finished unit of octets x behind the others, and notes it.
    fn put_unit(&self, number: ChannelNumber, x: &[u8], output: &mut [u8], units: &mut [u16])
        requires { Notable self.now x.now output.old units.old }
        ensures output { output.new ≡ written output.old self.now.octets x.now }
        ensures units { units.new ≡ written units.old (3 * self.now.units) (listed number.0 self.now.octets (length x.now)) }
    {
        octets::write(output, self.octets, x);
        note(units, 3 * self.units, number, self.octets, x.len());
    }

    // Writes the octets x of one piece to where they belong: behind what the channel at place p holds, or as a unit.
    fn put(&self, p: usize, held: &mut [u8], output: &mut [u8], units: &mut [u16], x: &[u8])
        requires { Puts (channel_at self.now.channels p) p self.now.octets self.now.units held.old output.old units.old x.now }
        ensures { Takes (channel_at self.now.channels p) p self.now.octets self.now.units x.now held output units }
    {
        let c = self.channels.at[p];
        if c.segmentable {
            octets::write(held, PLACE_OCTETS * p + usize::from(c.held), x);
        } else {
            self.put_unit(c.number, x, output, units);
        }
    }

    // Ends the unit that place p holds, and writes it behind the others.
    fn finish(&mut self, p: usize, held: &[u8], output: &mut [u8], units: &mut [u16])
        requires { Closable self.old p held.now output.old units.old }
        ensures { Finishes p self.old self.new held output units }
    {
        let c = self.channels.at[p];
        let from = PLACE_OCTETS * p;
        self.put_unit(
            c.number,
            &held[from..from + usize::from(c.held)],
            output,
            units,
        );
        self.close(p);
    }
}

// The dry run: every piece, by value; nothing, where a held unit would not stay within the octets of a place.
fn count_all(s: &Channels, places: &[u16], lengths: &[u16]) -> Option<Tally>
    requires { InPlaces places.now lengths.now }
    ensures { DryRun s.now (laid places.now lengths.now) result }
{
    let mut tally = Tally::new(*s);
    for (place, n) in places.iter().zip(lengths) {
        let p = usize::from(*place);
        if !has_room(&tally.channels.at[p], *n) {
            return None;
        }
        tally.add(p, *n);
    }
    Some(tally)
}

// Writes every piece.
fn pour(
    s: &Channels,
    held: &mut [u8],
    places: &[u16],
    lengths: &[u16],
    payload: &[u8],
    output: &mut [u8],
    units: &mut [u16],
) -> Tally
    requires { Pours s.now held.old places.now lengths.now payload.now output.old units.old }
    ensures { PouredBy s.now held places lengths payload output units result }
{
    let mut tally = Tally::new(*s);
    let mut rest = payload;
    for (place, n) in places.iter().zip(lengths) {
        let p = usize::from(*place);
        let (x, behind) = rest.split_at(usize::from(*n));
        tally.put(p, held, output, units, x);
        tally.add(p, *n);
        rest = behind;
    }
    tally
}

// The place whose unit the closing mark ends, where it is set: refusal 7, where the last octet is absent or not on a segmentable channel.
fn marked_place(s: Channels, mark: bool, places: &[u16]) -> Result<Option<usize>, Refusal>
    requires { (j : ℕ) → j < length places.now → get_or places.now j 0 < place_count }
    ensures place { result ≡ marked s mark places.now }
    // every state has so many places
    ensures full { length s.at ≡ place_count }
{
    if !mark {
        return Ok(None);
    }
    let Some(last) = places.last() else {
        return Err(Refusal::BadMark);
    };
    let p = usize::from(*last);
    if !s.at[p].segmentable {
        return Err(Refusal::BadMark);
    }
    Ok(Some(p))
}

// The octets of these pieces given back to their places: refusals 7, 8, 3, and then the writes.
fn deliver(
    s: &mut Channels,
    held: &mut [u8],
    mark: bool,
    places: &[u16],
    lengths: &[u16],
    payload: &[u8],
    output: &mut [u8],
    units: &mut [u16],
) -> Result<usize, Refusal>
    requires { Deliverable places.now lengths.now payload.now held.old }
    ensures { hands_back result s.new held output units
        ≡ delivered (lent s.old held output units) mark (laid places.now lengths.now) payload.now }
{
    let last = marked_place(*s, mark, places)?;
    let mut end = count_all(s, places, lengths).ok_or(Refusal::HeldTooLong)?;
    if let Some(p) = last {
        end.close(p);
    }
    if output.len() < end.octets || units.len() < 3 * end.units {
        return Err(Refusal::NoRoom);
    }
    let mut tally = pour(s, held, places, lengths, payload, output, units);
    if let Some(p) = last {
        tally.finish(p, held, output, units);
    }
    *s = tally.channels;
    Ok(tally.units)
}

// The octets of a payload sorted by their slots: refusals 6, 5, and those of `deliver`.
fn sort(
    s: &mut Channels,
    held: &mut [u8],
    table: &[u16; TABLE_NUMBERS],
    code: Code,
    mark: bool,
    payload: &[u8],
    output: &mut [u8],
    units: &mut [u16],
) -> Result<usize, Refusal>
    requires { (length payload.now ≤ longest_payload) × (code.0 ≤ highest_code) × (length held.old ≡ all_octets) }
    ensures { hands_back result s.new held output units
        ≡ sorted (lent s.old held output units) mark (slots_for table code.0 payload) payload.now }
{
    let mut places = [0u16; LONGEST_PAYLOAD];
    let mut lengths = [0u16; LONGEST_PAYLOAD];
    let laid = table::payload_slots(table, code, payload.len(), &mut places, &mut lengths);
    if 0 < laid.left {
        return Err(Refusal::PastEntry);
    }
    let n = laid.count;
    if !s.find(&mut places[..n]) {
        return Err(Refusal::NotOpen);
    }
    deliver(
        s,
        held,
        mark,
        &places[..n],
        &lengths[..n],
        payload,
        output,
        units,
    )
}

// Gives a payload's octets back to their channels, and tells how many units are finished: refusals 2, 4, 6, 5, 7, 8, 3. The finished
// units stand one after another at the front of output; of each, its channel, start and length stand in units.
pub fn demultiplex(
    s: &mut Channels,
    held: &mut [u8; ALL_OCTETS],
    table: &[u16; TABLE_NUMBERS],
    code: Code,
    mark: bool,
    payload: &[u8],
    output: &mut [u8],
    units: &mut [u16],
) -> Result<usize, Refusal>
    ensures { hands_back result s.new held output units
        ≡ demultiplexed (lent s.old held output units) table.now code.0 mark payload.now }
{
    if LONGEST_PAYLOAD < payload.len() {
        return Err(Refusal::BadLength);
    }
    if !table::is_defined(table, code) {
        return Err(Refusal::NoEntry);
    }
    sort(s, held, table, code, mark, payload, output, units)
}
