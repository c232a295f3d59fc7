// Call records on files: `recorder write UNITS RECORD` writes the record of a list of units, `recorder read RECORD` prints the list
// again, one unit a line: CHANNEL BADGE CHANGED OCTETS, in the notation of docs/gateway.md. A file's name may be `-`, for standard input
// or output.

#![tactic(auto)]

mod files; // files.rt: opening, reading and writing files
mod line; // line.rt: a line of a list, octet by octet
mod list; // list.rt: the units of a list, and what the library answers for them
mod room; // room.rt: the buffers that are lent to the library
mod table; // table.rt: the table below the units
mod units; // units.rt: the lines of a file of any length
mod write; // write.rt: `recorder write`
mod read; // read.rt: `recorder read`

use print::words;
use std::env::Env;
use std::io::Input;
use std::rt::Files;

// How to use the program.
fn help(rt: &impl Eprint) {
    let _ = rt.eprint("recorder write UNITS RECORD\nrecorder read RECORD\n");
}

// `recorder write UNITS RECORD`
fn write_record(rt: &(impl Print + Eprint + Env + Input + Files)) {
    let mut from = [0u8; words::LONGEST];
    let mut to = [0u8; words::LONGEST];
    let from = match words::word(rt, 2, &mut from) {
        Ok(from) => from,
        Err(error) => return print::fail(rt, "UNITS", &error),
    };
    let to = match words::word(rt, 3, &mut to) {
        Ok(to) => to,
        Err(error) => return print::fail(rt, "RECORD", &error),
    };
    write::run(rt, from, to);
}

// `recorder read RECORD`
fn read_record(rt: &(impl Print + Eprint + Env + Input + Files)) {
    let mut from = [0u8; words::LONGEST];
    match words::word(rt, 2, &mut from) {
        Ok(from) => read::run(rt, from),
        Err(error) => print::fail(rt, "RECORD", &error),
    }
}

fn main(rt: HostRuntime) {
    let mut command = [0u8; words::LONGEST];
    let command = words::word(&rt, 1, &mut command).unwrap_or("");
    if command == "write" && words::is_given(&rt, 3) && !words::is_given(&rt, 4) {
        return write_record(&rt);
    }
    if command == "read" && words::is_given(&rt, 2) && !words::is_given(&rt, 3) {
        return read_record(&rt);
    }
    help(&rt);
}
