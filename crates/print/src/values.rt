// Octets and numbers as programs print them.
ghost use Rattle.std.specs.Prelude.{◌≡◌, ◌<◌, ◌≤◌, true, Some, length};
ghost use Rattle.std.specs.Fmt.{digit_glyph};
ghost use Rattle.std.specs.List.{flat_map};
ghost use Rattle.print.specs.Text.{hex, octets_text, list_text};

use std::fmt::{Display, Formatter};
use std::{fmt, str};

// So many octets are put into hex at once; no text depends on it.
const PART: usize = 64;

// The digits of as many octets.
const DIGITS: usize = 2 * PART;

// The digit of a number below 16, in upper case.
fn digit(n: u8) -> u8
    requires { n < 16 }
    ensures { result ≡ digit_glyph true n }
{
    if n < 10 { b'0' + n } else { b'A' + (n - 10) }
}

// Octets in hex, in the room that is given.
fn spelt<'a>(octets: &[u8], room: &'a mut [u8; DIGITS]) -> &'a str
    requires { length octets.now ≤ 64 }
    ensures { result.now ≡ flat_map hex octets.now }
{
    let mut n = 0;
    for octet in octets {
        room[n] = digit(octet / 16);
        room[n + 1] = digit(octet % 16);
        n += 2;
    }
    match str::from_utf8(&room[..n]) {
        Ok(text) => text,
        Err(_) => unreachable!(),
    }
}

// Octets in hex, two digits in upper case for each, or `-` for none.
#[derive(Clone, Copy)]
pub struct Hex<'a>(pub &'a [u8]);

impl<'a> Display for Hex<'a> {
    ghost output = { λ h. Some (octets_text h.0.now) };

    fn fmt<W: fmt::Write>(&self, f: &mut Formatter<W>) -> fmt::Result {
        let Hex(octets) = *self;
        if octets.is_empty() {
            return f.write_str("-");
        }
        let mut room = [0; DIGITS];
        for part in octets.chunks(PART) {
            f.write_str(spelt(part, &mut room))?;
        }
        Ok(())
    }
}

// Numbers below 256 in decimal, parted by commas, or `-` for none.
#[derive(Clone, Copy)]
pub struct List<'a>(pub &'a [u8]);

impl<'a> Display for List<'a> {
    ghost output = { λ l. Some (list_text l.0.now) };

    fn fmt<W: fmt::Write>(&self, f: &mut Formatter<W>) -> fmt::Result {
        let Some((first, others)) = self.0.split_first() else {
            return f.write_str("-");
        };
        write!(f, "{first}")?;
        for n in others {
            write!(f, ",{n}")?;
        }
        Ok(())
    }
}
