// The gateway on files: calls, one a line, from the file that its argument names or from standard input, and an answer for each.
// docs/gateway.md has the language. `script` reads each line into a call; here a call is carried out by the library, and answered.

#![tactic(auto)]

mod answer; // answer.rt: what is printed in more than one place
mod coding; // coding.rt: the calls that have no state: length, encode, receive, al1
mod input; // input.rt: the calls of a file of any length
mod lent; // lent.rt: as much of a buffer as a line names
mod packet; // packet.rt: the calls on packets of level 2: pack, unpack
mod payload; // payload.rt: the calls that make and read payloads: mux, demux
mod state; // state.rt: what the gateway keeps, and a call carried out on it
mod stream; // stream.rt: the call that takes the raw octets of packets: link
mod units; // units.rt: the calls on AL2's units, by channel: send, take

use print::words;
use std::fs;
use std::rt::Files;

// Answers the calls of a file, or says why it cannot be opened.
fn serve_file(rt: &(impl Print + Eprint + Files), path: &str) {
    if path == "--help" {
        return answer::help(rt);
    }
    match fs::open(rt, path) {
        Ok(mut file) => input::serve(rt, &mut file, path),
        Err(error) => print::fail(rt, path, &error),
    }
}

fn main(rt: HostRuntime) {
    if !words::is_given(&rt, 1) {
        return input::serve(&rt, &mut rt.reader(), "standard input");
    }
    if words::is_given(&rt, 2) {
        return answer::help(&rt);
    }
    let mut path = [0u8; words::LONGEST];
    match words::word(&rt, 1, &mut path) {
        Ok(path) => serve_file(&rt, path),
        Err(error) => print::fail(&rt, "FILE", &error),
    }
}
