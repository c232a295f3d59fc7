// The multiplexer of H.223 (000, clause 6): demultiplexer and multiplexer over the channels and the multiplex table.

#![tactic(auto)]

pub mod demultiplexer; // demultiplexer.rt: a payload's octets given back to their channels
pub mod multiplexer; // multiplexer.rt: waiting octets laid out as a payload
pub mod units; // units.rt: the list of finished units, read
