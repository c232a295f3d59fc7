// What a program prints, put together in a buffer. A full buffer is written out and filled anew, so that what is printed may have any
// length. What cannot be written is said on standard error.
#![tactic(auto)]

ghost use Rattle.std.specs.Prelude.{◌≡◌, ◌≤◌, length};

pub mod values; // values.rt: octets and numbers as programs print them
pub mod words; // words.rt: the words that a program is started with

use std::fmt::{Display, InlineText, Write};
use std::{fmt, io};

// The octets of the buffer; no length of what is printed depends on it.
pub const BUFFER: usize = 4096;

// Text of so many octets is copied where it has room; a copy of fewer takes more instructions than they do one by one.
const COPIED: usize = 16;

// The octets of the longest reason that is given for what failed, more than the system has for any.
const REASON: usize = 128;

// Says on standard error what failed, and why, in the system's words without its number for them; where those cannot be written either,
// there is nobody to tell.
pub fn fail(rt: &impl Eprint, what: &str, error: &impl Display) {
    let reason = InlineText::<REASON>::of(error);
    let reason = reason.as_str();
    let words = match reason.split_once(" (os error ") {
        Some((words, _)) => words,
        None => reason,
    };
    let _ = eprintln!(rt; "{what}: {words}");
}

// Writes text as it is; says so where it cannot be written.
pub fn text(rt: &(impl Print + Eprint), t: &[u8]) {
    if let Err(error) = rt.write_all(t) {
        fail(rt, "standard output", &error);
    }
}

// Prints a line.
pub fn line(rt: &(impl Print + Eprint), line: impl Display + Drop) {
    let mut out = Output::new(rt);
    let _ = writeln!(out, "{line}");
    out.end();
}

// What is put together: the front of the buffer, which goes out over the runtime. No heap, so it is an array and how much of it stands
// there, and no `Vec`.
#[derive(Drop)]
pub struct Output<'a, R> {
    rt: &'a R,
    octets: [u8; BUFFER],
    n: usize,
    ghost within: { n ≤ 4096 },
    ghost whole: { length octets ≡ 4096 },
}

impl<'a, R: Print + Eprint> Output<'a, R> {
    ghost use Rattle.std.specs.Prelude.{[], ◌∷◌, take};
    ghost use Rattle.print.specs.Buffer.{Rests};

    // Nothing is put yet.
    pub fn new(rt: &'a R) -> Self
        ensures { result.n ≡ 0 }
    {
        Output {
            rt,
            octets: [0; BUFFER],
            n: 0,
        }
    }

    // Writes what stands in the buffer, which is then empty.
    pub fn end(&mut self)
        ensures { self.new.n ≡ 0 }
    {
        text(self.rt, &self.octets[..self.n]);
        self.n = 0;
    }

    // Puts one octet; a full buffer is written first.
    pub fn store(&mut self, octet: u8)
        ensures { Rests (take self.old.n self.old.octets) (octet ∷ []) (take self.new.n self.new.octets) }
    {
        if self.n == BUFFER {
            self.end();
        }
        self.octets[self.n] = octet;
        self.n += 1;
    }
}

// A write never fails: what cannot be written is said, and dropped.
impl<'a, R: Print + Eprint> fmt::Write for Output<'a, R> {
    ghost use Rattle.std.specs.Prelude.{IsOk, take};
    ghost use Rattle.print.specs.Buffer.{Rests};

    ghost write_str_gives = { λ w text v. Rests (take w.n w.octets) text (take v.n v.octets) };

    fn write_str(&mut self, text: &str) -> fmt::Result
        ensures ok { IsOk result → Rests (take self.old.n self.old.octets) text.now (take self.new.n self.new.octets) }
        ensures always { IsOk result }
    {
        let octets = text.as_bytes();
        if COPIED <= octets.len() && octets.len() <= BUFFER - self.n {
            self.octets[self.n..self.n + octets.len()].copy_from_slice(octets);
            self.n += octets.len();
            return Ok(());
        }
        for octet in octets {
            self.store(*octet);
        }
        Ok(())
    }
}
