// The lines of a file of any length, a chunk at a time, and the list of their units.
use crate::line::{Line, Malformed};
use crate::list::List;
use crate::write::NoRecord;
use std::io::Read;

// How many octets are read at once.
const CHUNK: usize = 65536;

// The line that is being read and its number, from 1; the number of the first that has not the form; and the units of those before.
#[derive(Drop)]
struct Session<'a> {
    line: Line,
    number: u64,
    malformed: Option<u64>,
    list: List<'a>,
}

impl<'a> Session<'a> {
    // Takes what the line says, and begins the next. Numbers of lines go as far as numbers go.
    fn finish(&mut self) {
        if self.malformed.is_none() {
            match self.line.end() {
                Ok(None) => (),
                Ok(Some(unit)) => self.list.add(unit),
                Err(Malformed) => self.malformed = Some(self.number),
            }
        }
        self.line = Line::new();
        self.number = self.number.saturating_add(1);
    }

    // Takes octets, one by one.
    fn take(&mut self, octets: &[u8]) {
        for octet in octets {
            match *octet {
                b'\n' => self.finish(),
                other => self.line.take(other),
            }
        }
    }
}

// Takes the units of a file to its end into a list without any; the last line may lack its newline. A proved loop has to end, and nothing
// says that a file does: so the loop counts its turns, to a number that no run uses up.
pub fn take<'a>(from: &mut impl Read, list: List<'a>) -> Result<List<'a>, NoRecord> {
    let mut session = Session {
        line: Line::new(),
        number: 1,
        malformed: None,
        list,
    };
    let mut chunk = [0u8; CHUNK];
    for _ in 0..u64::MAX {
        match from.read(&mut chunk)? {
            0 => break,
            n => session.take(&chunk[..n]),
        }
    }
    session.finish();
    match session.malformed {
        Some(n) => Err(NoRecord::Malformed(n)),
        None => Ok(session.list),
    }
}
