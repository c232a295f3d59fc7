// Tries the code word on 003's example, on one octet with e = 127, and on the vectors A2 to A7 as far as they concern words.
#![tactic(auto)]

use codeword::LONGEST_WORD;
use field::ORDER;
use std::fmt::{Display, Formatter};
use std::{fmt, io};

// The most octets that may be repaired: the longest word is then one octet and its parity.
const MOST_REPAIRS: usize = 127;

// An octet as a power of α, as 003 prints it; 0 is none.
#[derive(Clone, Copy)]
struct Power(u8);

impl Display for Power {
    fn fmt<W: fmt::Write>(&self, f: &mut Formatter<W>) -> fmt::Result {
        match (0..ORDER).find(|k| field::power(*k) == self.0) {
            Some(exponent) => write!(f, "α^{exponent}"),
            None => write!(f, "0"),
        }
    }
}

// An octet in hex.
#[derive(Clone, Copy)]
struct Hex(u8);

impl Display for Hex {
    fn fmt<W: fmt::Write>(&self, f: &mut Formatter<W>) -> fmt::Result {
        write!(f, "{:02X}", self.0)
    }
}

// Writes octets in a form, each behind a space.
fn write_octets<T: Display + Drop, F: Fn(u8) -> T>(
    rt: &impl Print,
    octets: &[u8],
    form: F,
) -> io::Result<()>
    requires { F.IsAlwaysCallable form }
{
    for octet in octets {
        print!(rt; " {}", form(*octet))?;
    }
    Ok(())
}

// Writes a line: what the octets are, and the octets in a form.
fn write_line<T: Display + Drop, F: Fn(u8) -> T>(
    rt: &impl Print,
    name: &str,
    octets: &[u8],
    form: F,
) -> io::Result<()>
    requires { F.IsAlwaysCallable form }
{
    print!(rt; "{name}")?;
    write_octets(rt, octets, form)?;
    println!(rt)
}

// Encodes, and writes the code word.
fn try_encode(rt: &impl Print, message: &[u8], e: usize) -> io::Result<()> {
    let mut sent = [0u8; LONGEST_WORD];
    let n = codeword::encode(message, e, &mut sent).unwrap_or(0);
    write_line(rt, "encode", octets::front(&sent, n), Hex)
}

// Repairs, and writes what was found.
fn try_repair(rt: &impl Print, word: &[u8], e: usize) -> io::Result<()> {
    let mut repaired = [0u8; LONGEST_WORD];
    let mut places = [0u8; MOST_REPAIRS];
    let Some(changed) = codeword::repair(word, e, &mut repaired, &mut places) else {
        return println!(rt; "repair: out of reach");
    };
    print!(rt; "repair: changed {changed} at")?;
    write_octets(rt, octets::front(&places, changed), |place| place)?;
    write_line(rt, ":", octets::front(&repaired, word.len()), Hex)
}

// 003, D.4.1.7.3: e = 2, u, g, p and c as powers of α. The generator is what encodes 01.
fn try_example(rt: &impl Print) -> io::Result<()> {
    let u = [0x10, 0x80, 0xF5];
    let mut g = [0u8; 5];
    codeword::encode(&[1], 2, &mut g);
    let mut c = [0u8; 7];
    codeword::encode(&u, 2, &mut c);
    write_line(rt, "u =", &u, Power)?;
    write_line(rt, "g =", &g, Power)?;
    write_line(rt, "p =", &c[3..], Power)?;
    write_line(rt, "c =", &c, Power)
}

// Changes every second octet of a slice.
fn damage(word: &mut [u8]) {
    for octet in word.iter_mut().skip(1).step_by(2) {
        *octet = field::sum(*octet, 0xA5);
    }
}

// One octet with that e: the longest word, of which as many octets are then damaged.
fn try_longest(rt: &impl Print) -> io::Result<()> {
    let mut sent = [0u8; LONGEST_WORD];
    let n = codeword::encode(&[0x5A], MOST_REPAIRS, &mut sent).unwrap_or(0);
    print!(rt; "one octet, e = 127: octets {n}")?;
    write_line(rt, "", &sent, Hex)?;
    damage(&mut sent);
    try_repair(rt, &sent, MOST_REPAIRS)
}

fn main(rt: HostRuntime) -> io::Result<()> {
    try_example(&rt)?;
    try_longest(&rt)?;
    print!(rt; "A2: ")?;
    try_encode(&rt, b"\x01", 2)?;
    print!(rt; "A3: ")?;
    try_encode(&rt, b"\x10\x80\xf5", 2)?;
    print!(rt; "A4: ")?;
    try_repair(&rt, b"\x00\x00\xf5\x4e\xcd\x57\xa5", 2)?;
    print!(rt; "A5: ")?;
    try_repair(&rt, b"\x01\x06\x08", 1)?;
    print!(rt; "A6: ")?;
    try_repair(&rt, b"\x01\x06\x00", 1)?;
    print!(rt; "A7: ")?;
    try_repair(&rt, b"\x01\x0c\x18", 1)
}
