// The calls that make and read payloads: mux, demux.
use crate::lent::lend;
use crate::state::Gateway;
use calls::Refusal;
use channels::layers;
use multiplex::units::{ENOUGH_OUTPUT, ENOUGH_UNITS};
use multiplex::{demultiplexer, multiplexer, units};
use print::values::Hex;
use script::call::{DemuxCall, MuxCall};
use table::{Code, LONGEST_PAYLOAD};

// The finished units, one a line.
fn deliver(rt: &(impl Print + Eprint), n: usize, output: &[u8], list: &[u16]) {
    print::line(rt, format_args!("units {n}"));
    for unit in (0..n).filter_map(|j| units::unit_at(list, j)) {
        let octets = layers::unit_at(output, unit.start, unit.length);
        print::line(rt, format_args!("unit {} {}", unit.channel.0, Hex(octets)));
    }
}

impl Gateway {
    pub fn multiplex(&mut self, rt: &(impl Print + Eprint), c: MuxCall) -> Result<(), Refusal> {
        let mut payload = [0u8; LONGEST_PAYLOAD];
        let made = multiplexer::multiplex(
            &mut self.channels,
            &self.waiting,
            &self.table,
            Code(c.code),
            c.room as usize,
            lend(&mut payload, c.lent as usize),
        )?;
        let octets = Hex(octets::front(&payload, made.octets));
        print::line(rt, format_args!("payload {} {octets}", u8::from(made.mark)));
        Ok(())
    }

    pub fn demultiplex(
        &mut self,
        rt: &(impl Print + Eprint),
        c: DemuxCall<'_>,
    ) -> Result<(), Refusal> {
        let mut output = [0u8; ENOUGH_OUTPUT];
        let mut list = [0u16; ENOUGH_UNITS];
        self.take_payload(
            rt,
            Code(c.code),
            c.mark,
            c.octets,
            lend(&mut output, c.room as usize),
            lend(&mut list, 3 * c.units as usize),
        )
    }

    // Demultiplexes a payload into what is lent for it, and says what came of it.
    pub fn take_payload(
        &mut self,
        rt: &(impl Print + Eprint),
        code: Code,
        mark: bool,
        payload: &[u8],
        output: &mut [u8],
        list: &mut [u16],
    ) -> Result<(), Refusal> {
        let n = demultiplexer::demultiplex(
            &mut self.channels,
            &mut self.held,
            &self.table,
            code,
            mark,
            payload,
            output,
            list,
        )?;
        deliver(rt, n, output, list);
        Ok(())
    }
}
