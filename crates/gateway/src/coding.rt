// The calls that have no state: length, encode, receive, al1.
use crate::lent::lend;
use adaptation::al1m::MOST_PLACES;
use adaptation::{LONGEST_UNIT, al1, al1m};
use calls::Refusal;
use codeword::LONGEST_WORD;
use print::values::{Hex, List};
use script::call::{Coding, CodingCall};

fn length(rt: &(impl Print + Eprint), t: u32, width: u32, e: u32) -> Result<(), Refusal> {
    let n = al1m::sent_length(t as usize, width, e)?;
    print::line(rt, format_args!("length {n}"));
    Ok(())
}

fn encode(rt: &(impl Print + Eprint), c: CodingCall<'_>, room: u32) -> Result<(), Refusal> {
    let mut out = [0u8; LONGEST_UNIT];
    let n = al1m::encode(c.octets, c.width, c.e, lend(&mut out, room as usize))?;
    print::line(rt, format_args!("sent {}", Hex(octets::front(&out, n))));
    Ok(())
}

fn receive(
    rt: &(impl Print + Eprint),
    c: CodingCall<'_>,
    room: u32,
    most: u32,
) -> Result<(), Refusal> {
    let mut repair = [0u8; LONGEST_WORD];
    let mut places = [0u8; MOST_PLACES];
    let word = c.octets;
    let lent = lend(&mut repair, room as usize);
    let list = lend(&mut places, most as usize);
    let j = al1m::receive(word, c.width, c.e, lent, list)?;
    print::line(
        rt,
        format_args!(
            "badge {} changed {} unit {} at {}",
            u8::from(j.badge),
            j.changed,
            Hex(al1m::unit(word, &repair, j.badge, j.length)),
            List(octets::front(&places, j.changed)),
        ),
    );
    Ok(())
}

fn pass(rt: &(impl Print + Eprint), unit: &[u8]) -> Result<(), Refusal> {
    let badge = u8::from(al1::pass(unit)?);
    print::line(
        rt,
        format_args!("badge {badge} changed 0 unit {}", Hex(unit)),
    );
    Ok(())
}

// Carries out a call that has no state.
pub fn carry_out(rt: &(impl Print + Eprint), call: Coding<'_>) -> Result<(), Refusal> {
    match call {
        Coding::Length { width, e, t } => length(rt, t, width, e),
        Coding::Encode { coding, room } => encode(rt, coding, room),
        Coding::Receive {
            coding,
            room,
            places,
        } => receive(rt, coding, room, places),
        Coding::Al1 { octets } => pass(rt, octets),
    }
}
