// The calls on packets of level 2: pack, unpack. The third, link, is in stream.rt.
use crate::lent::lend;
use calls::Refusal;
use packets::{AROUND, LONGEST};
use print::values::Hex;
use script::call::PackCall;
use table::Code;

// The octets of the longest packet.
const LONGEST_PACKET: usize = LONGEST + AROUND;

pub fn pack(rt: &(impl Print + Eprint), c: PackCall<'_>) -> Result<(), Refusal> {
    let mut out = [0u8; LONGEST_PACKET];
    let lent = lend(&mut out, c.room as usize);
    let n = packets::write(c.opens, Code(c.code), c.mark, c.octets, lent)?;
    print::line(rt, format_args!("packet {}", Hex(octets::front(&out, n))));
    Ok(())
}

pub fn unpack(rt: &(impl Print + Eprint), octets: &[u8]) -> Result<(), Refusal> {
    let p = packets::read(octets)?;
    print::line(
        rt,
        format_args!(
            "code {} mark {} payload {} next {}",
            p.code.0,
            u8::from(p.mark),
            Hex(packets::payload(octets, p.length)),
            p.next,
        ),
    );
    Ok(())
}
