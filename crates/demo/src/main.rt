// A whole call: units of five channels are coded, multiplexed, sent in packets, damaged on the way by a fixed pattern, demultiplexed,
// repaired and badged; one of them, repaired, is shown octet by octet; then what became of the packets, and a table of what became of the
// units.

#![tactic(auto)]

mod example; // example.rt: one unit, received and repaired, octet by octet
mod far; // far.rt: the far end: units judged and compared with what was sent
mod link; // link.rt: the bad link, and the damage to a packet
mod near; // near.rt: the near end: units made, coded, posted and multiplexed
mod packet; // packet.rt: what a packet carries, and what became of the packets
mod plan; // plan.rt: the channels, their layers and the table's entries
mod show; // show.rt: what became of the call, and the table
mod tally; // tally.rt: what was counted of a channel's units
mod way; // way.rt: payloads, each in a packet

use way::Call;

fn main(rt: HostRuntime) {
    let mut call = Call::new();
    for round in 0..plan::ROUNDS {
        call.run(round);
    }
    if let Some(example) = &call.far.example {
        print::line(&rt, example);
    }
    print::line(&rt, &call);
}
