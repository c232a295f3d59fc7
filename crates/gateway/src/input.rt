// The calls of a file of any length, a chunk at a time.
use crate::state::Gateway;
use script::call::{Call, Malformed};
use script::read;
use std::io::Read;
use table::form::LONGEST_ENTRY;
use text::lines;
use text::lines::Reading;

// The octets of the longest line that is read, and of those that stand in it in hex.
const LINE: usize = 16384;

const OCTETS: usize = LINE / 2;

// How many octets are read at once.
const CHUNK: usize = 4096;

// The line that is being read, room for the octets and the table entry that it gives, and the gateway as the calls before it left it. (No
// heap: a call has parts of them.)
#[derive(Drop)]
struct Session {
    reading: Reading,
    line: [u8; LINE],
    octets: [u8; OCTETS],
    entry: [u16; LONGEST_ENTRY],
    gateway: Gateway,
}

// What the line that was read asks for: one that has no room cannot be read.
fn call<'a>(
    reading: Reading,
    line: &[u8],
    octets: &'a mut [u8],
    entry: &'a mut [u16],
) -> Result<Option<Call<'a>>, Malformed> {
    if reading.over {
        return Err(Malformed);
    }
    read::call(octets::front(line, reading.length), octets, entry)
}

impl Session {
    // No line is read yet, and no call was carried out.
    fn new() -> Session {
        Session {
            reading: lines::begin(),
            line: [0; LINE],
            octets: [0; OCTETS],
            entry: [0; LONGEST_ENTRY],
            gateway: Gateway::new(),
        }
    }

    // Answers the line that was read, and begins the next.
    fn finish(&mut self, rt: &(impl Print + Eprint)) {
        match call(self.reading, &self.line, &mut self.octets, &mut self.entry) {
            Ok(None) => (),
            Ok(Some(call)) => self.gateway.answer(rt, call),
            Err(Malformed) => print::line(rt, "malformed"),
        }
        self.reading = lines::begin();
    }

    // Takes octets of the input, one by one.
    fn feed(&mut self, rt: &(impl Print + Eprint), octets: &[u8]) {
        for octet in octets {
            self.reading = lines::take(self.reading, &mut self.line, *octet);
            if self.reading.whole {
                self.finish(rt);
            }
        }
    }
}

// Reads and answers calls until the input ends, or says under its name why it cannot be read. A proved loop has to end, and nothing says
// that a file does: so the loop counts its turns, to a number that no run uses up.
pub fn serve(rt: &(impl Print + Eprint), from: &mut impl Read, name: &str) {
    let mut session = Session::new();
    let mut chunk = [0u8; CHUNK];
    for _ in 0..u64::MAX {
        match from.read(&mut chunk) {
            Ok(0) => break,
            Ok(n) => session.feed(rt, &chunk[..n]),
            Err(error) => {
                print::fail(rt, name, &error);
                break;
            }
        }
    }
    if 0 < session.reading.length {
        session.finish(rt);
    }
}
