// The calls on AL2's units, by channel: send, take.
use crate::lent::lend;
use crate::state::Gateway;
use adaptation::{LONGEST_UNIT, al2};
use calls::Refusal;
use channels::ChannelNumber;
use print::values::Hex;
use script::call::UnitCall;

impl Gateway {
    pub fn send(
        &mut self,
        rt: &(impl Print + Eprint),
        u: UnitCall<'_>,
        room: u32,
    ) -> Result<(), Refusal> {
        let mut out = [0u8; LONGEST_UNIT];
        let number = ChannelNumber(u.channel);
        let lent = lend(&mut out, room as usize);
        let n = self.channels.send(number, u.numbered, u.octets, lent)?;
        print::line(rt, format_args!("sent {}", Hex(octets::front(&out, n))));
        Ok(())
    }

    pub fn take(&mut self, rt: &(impl Print + Eprint), u: UnitCall<'_>) -> Result<(), Refusal> {
        let whole = u.octets;
        let number = ChannelNumber(u.channel);
        match self.channels.take(number, u.numbered, whole)? {
            Some(d) => {
                let unit = Hex(al2::unit(whole, u.numbered));
                print::line(
                    rt,
                    format_args!(
                        "badge {} missing {} unit {unit}",
                        u8::from(d.badge),
                        d.missing
                    ),
                );
            }
            None => print::line(rt, "discarded"),
        }
        Ok(())
    }
}
