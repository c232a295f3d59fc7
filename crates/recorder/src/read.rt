// `recorder read RECORD`.
use crate::room::{NUMBERS, OCTETS};
use crate::write::{NoRecord, Stream};
use crate::{files, list, room, table};
use print::Output;
use print::values::Hex;
use std::fmt::Write;
use std::io::Input;
use std::rt::Files;

// Puts the units' lines: of a unit the first three of its four numbers, and its octets, of which the fourth says how many there are.
fn units<R: Print + Eprint>(out: &mut Output<'_, R>, numbers: &[u16], content: &[u8]) {
    let mut ahead = content;
    for four in numbers.chunks_exact(4) {
        let [channel, badge, changed, length] = four else {
            return;
        };
        let Some((own, behind)) = ahead.split_at_checked(usize::from(*length)) else {
            return;
        };
        let _ = writeln!(out, "{channel} {badge} {changed} {}", Hex(own));
        ahead = behind;
    }
}

// Prints the units of a record, and the table below them.
fn show(rt: &(impl Print + Eprint), record: &[u8], numbers: &[u16], content: &[u8]) {
    let mut out = Output::new(rt);
    units(&mut out, numbers, content);
    table::put(&mut out, record);
    out.end();
}

// Reads a record, and answers.
fn record(rt: &(impl Print + Eprint), record: &[u8]) {
    let mut numbers: [u16; NUMBERS] = room::buffer();
    let mut content: [u8; OCTETS] = room::buffer();
    match record::read(record, &mut numbers, &mut content) {
        Ok(n) => show(rt, record, list::first(&numbers, n), &content),
        Err(refusal) => Stream::Output.refuse(rt, &NoRecord::Refused(refusal)),
    }
}

// A file is read as far as one octet past the longest record, which is no record whatever follows.
pub fn run(rt: &(impl Print + Eprint + Input + Files), from: &str) {
    let mut source = match files::open(rt, from) {
        Ok(source) => source,
        Err(error) => return print::fail(rt, from, &error),
    };
    let mut input: [u8; OCTETS] = room::buffer();
    match files::fill(&mut source, &mut input) {
        Ok(n) => record(rt, octets::front(&input, n)),
        Err(error) => print::fail(rt, from, &error),
    }
}
