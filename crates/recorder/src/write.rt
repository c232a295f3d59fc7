// `recorder write UNITS RECORD`. Nothing is opened for writing before the answer is known.
use crate::list::List;
use crate::room::{NUMBERS, OCTETS};
use crate::{files, room, units};
use calls::Refusal;
use std::fmt::Display;
use std::io::{Input, Read};
use std::rt::Files;
use std::{fmt, io};

// Why there is no record: the number of the list's first line that has not the form; what the library refuses; or a file that cannot be
// read.
#[derive(Drop)]
pub enum NoRecord {
    Malformed(u64),
    Refused(Refusal),
    Unread(io::Error),
}

impl Display for NoRecord {
    fn fmt<W: fmt::Write>(&self, f: &mut fmt::Formatter<W>) -> fmt::Result {
        match self {
            NoRecord::Malformed(line) => write!(f, "malformed {line}"),
            NoRecord::Refused(refusal) => write!(f, "refused {refusal}"),
            NoRecord::Unread(error) => write!(f, "{error}"),
        }
    }
}

impl From<Refusal> for NoRecord {
    fn from(refusal: Refusal) -> NoRecord {
        NoRecord::Refused(refusal)
    }
}

impl From<io::Error> for NoRecord {
    fn from(error: io::Error) -> NoRecord {
        NoRecord::Unread(error)
    }
}

// Where an answer goes: standard output, or standard error.
#[derive(Clone, Copy, Debug, PartialEq, Eq)]
pub enum Stream {
    Output,
    Errors,
}

impl Stream {
    // Where the answer goes: beside the record, if that is written to standard output.
    fn beside(to: &str) -> Stream {
        if to == "-" {
            Stream::Errors
        } else {
            Stream::Output
        }
    }

    // Says an answer; says so where it cannot be written.
    fn say(self, rt: &(impl Print + Eprint), answer: &impl Display) {
        let said = match self {
            Stream::Output => println!(rt; "{answer}"),
            Stream::Errors => eprintln!(rt; "{answer}"),
        };
        if let Err(error) = said {
            print::fail(rt, "the answer", &error);
        }
    }

    // Says why there is no record, on standard error too: `./kyte` tells by that what the program answered.
    pub fn refuse(self, rt: &(impl Print + Eprint), why: &NoRecord) {
        self.say(rt, why);
        if self == Stream::Output {
            Stream::Errors.say(rt, why);
        }
    }
}

// Makes the record of a list, and tells how many units it has, and octets.
fn record(from: &mut impl Read, output: &mut [u8]) -> Result<(usize, usize), NoRecord> {
    let mut numbers: [u16; NUMBERS] = room::buffer();
    let mut content: [u8; OCTETS] = room::buffer();
    let list = units::take(from, List::new(&mut numbers, &mut content))?;
    Ok((list.units(), list.write(output)?))
}

// The list stays open until its answer is given: a pipe that is named for the record too has a reader then.
pub fn run(rt: &(impl Print + Eprint + Input + Files), from: &str, to: &str) {
    let mut source = match files::open(rt, from) {
        Ok(source) => source,
        Err(error) => return print::fail(rt, from, &error),
    };
    let answers = Stream::beside(to);
    let mut output: [u8; OCTETS] = room::buffer();
    match record(&mut source, &mut output) {
        Ok((units, octets)) => match files::write(rt, to, octets::front(&output, octets)) {
            Ok(()) => answers.say(rt, &format_args!("units {units} octets {octets}")),
            Err(error) => print::fail(rt, files::name(to), &error),
        },
        Err(NoRecord::Unread(error)) => print::fail(rt, from, &error),
        Err(why) => answers.refuse(rt, &why),
    }
}
