// What the benchmark times: payloads under a table entry that it lends, each from the same state. No host calls these functions.
#![tactic(auto)]

ghost use Rattle.std.specs.Prelude.{◌≤◌};

use channels::{ALL_OCTETS, ChannelNumber, Channels, PLACE_OCTETS};
use multiplex::{demultiplexer, multiplexer};
use table::{Code, TABLE_NUMBERS};

// The code of the entry that is lent.
const CODE: u32 = 1;

// Channel 1, whole, and channels 2 and 3, segmentable; the entry lent.
fn set_up(table: &mut [u16; TABLE_NUMBERS], entry: &[u16]) -> Channels {
    let _ = table::replace(table, Code(CODE), entry);
    let mut s = Channels::new();
    for (number, segmentable) in [(1, false), (2, true), (3, true)] {
        let _ = s.open(ChannelNumber(number), segmentable);
    }
    s
}

// Units wait on every channel: 4 octets on channel 1, as many as a place has on the others.
fn fill(mut s: Channels, waiting: &mut [u8; ALL_OCTETS]) -> Channels {
    let unit = [0u8; PLACE_OCTETS];
    for (number, posted) in [
        (0, &unit[..]),
        (1, &unit[..4]),
        (2, &unit[..]),
        (3, &unit[..]),
    ] {
        let _ = s.post(waiting, ChannelNumber(number), posted);
    }
    s
}

// How many of so many rounds succeed.
fn count<F: FnMut() -> bool>(rounds: u32, mut succeeds: F) -> u32
    requires { F.IsAlwaysCallable succeeds }
    ensures { result ≤ rounds }
{
    let mut n = 0;
    for _ in 0..rounds {
        if succeeds() {
            n += 1;
        }
    }
    n
}

// Gives the payload to the demultiplexer so many times, and tells how often it was accepted.
#[unsafe(no_mangle)]
pub extern "C" fn bench_demux(
    rounds: u32,
    entry: &[u16],
    held: &mut [u8; ALL_OCTETS],
    payload: &[u8],
    output: &mut [u8],
    units: &mut [u16],
) -> u32
    ensures { result ≤ rounds }
{
    let mut table = [0u16; TABLE_NUMBERS];
    let s = set_up(&mut table, entry);
    count(rounds, || {
        let mut after = s;
        demultiplexer::demultiplex(
            &mut after,
            held,
            &table,
            Code(CODE),
            false,
            payload,
            output,
            units,
        )
        .is_ok()
    })
}

// Asks the multiplexer so many times for a payload that fills the room lent, and tells how often there was one.
#[unsafe(no_mangle)]
pub extern "C" fn bench_mux(
    rounds: u32,
    entry: &[u16],
    waiting: &mut [u8; ALL_OCTETS],
    payload: &mut [u8],
) -> u32
    ensures { result ≤ rounds }
{
    let mut table = [0u16; TABLE_NUMBERS];
    let s = fill(set_up(&mut table, entry), waiting);
    let room = payload.len();
    count(rounds, || {
        let mut after = s;
        multiplexer::multiplex(&mut after, waiting, &table, Code(CODE), room, payload).is_ok()
    })
}
