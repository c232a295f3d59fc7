// The words that a program is started with, from 1 on; word 0 is its own name.
ghost use Rattle.std.specs.Prelude.{◌≡◌, Some};
ghost use Rattle.print.specs.Text.{no_word, reason};

use std::env::{Env, FillError};
use std::fmt;
use std::fmt::{Display, Formatter};

// The octets of the longest word that is read, more than the name of a file may have.
pub const LONGEST: usize = 4096;

// Why there is no word.
#[derive(Clone, Copy, Debug, PartialEq, Eq)]
pub enum NoWord {
    Missing,
    TooLong,
    NotText,
}

// In the words that Linux has for it.
impl Display for NoWord {
    ghost output = { λ e. Some (reason e) };

    fn fmt<W: fmt::Write>(&self, f: &mut Formatter<W>) -> fmt::Result {
        f.write_str(match self {
            NoWord::Missing => "Invalid argument",
            NoWord::TooLong => "File name too long",
            NoWord::NotText => "Invalid or incomplete multibyte or wide character",
        })
    }
}

impl From<FillError> for NoWord {
    ghost from_gives = { λ e w. w ≡ no_word e };

    fn from(error: FillError) -> NoWord {
        match error {
            FillError::NotPresent => NoWord::Missing,
            FillError::TooLong => NoWord::TooLong,
        }
    }
}

// Whether there is a word i.
pub fn is_given(rt: &impl Env, i: usize) -> bool {
    !matches!(rt.arg(i, &mut [0u8; 1]), Err(FillError::NotPresent))
}

// Word i, which is put to the front of the buffer; or why there is none.
pub fn word<'a>(rt: &impl Env, i: usize, to: &'a mut [u8; LONGEST]) -> Result<&'a str, NoWord> {
    let n = rt.arg(i, to)?;
    str::from_utf8(&to[..n]).map_err(|_| NoWord::NotText)
}
