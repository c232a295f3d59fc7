// How a call ends: it is refused under a number, or answered. Nothing here knows what is called.

#![tactic(auto)]

ghost use Rattle.std.specs.Prelude.{◌≡◌};
ghost use Rattle.calls.specs.Refusal.{number};

use std::fmt;

// Why a call is refused, and as which number (document 01, "Refusal numbers"; 15 and 17 of document 02's tickets 1 and 4). What each number
// is given for is said where it is given.
#[derive(Clone, Copy, Debug, PartialEq, Eq)]
pub enum Refusal {
    // There is no such setting.
    BadSetting = 1,
    // A length is outside its range.
    BadLength = 2,
    // A lent output is too small.
    NoRoom = 3,
    // There is no entry under the number that is asked for.
    NoEntry = 4,
    // What is used is not open.
    NotOpen = 5,
    // What is given goes past its entry's end.
    PastEntry = 6,
    // A mark is set where it ends nothing.
    BadMark = 7,
    // What is held would pass its longest.
    HeldTooLong = 8,
    // Nothing waits that could be sent.
    NothingWaits = 9,
    // What is to be an entry is none.
    BadEntry = 10,
    // Something waits already.
    AlreadyWaiting = 11,
    // No place is free.
    NoPlace = 12,
    // What is to be opened is open already.
    AlreadyOpen = 13,
    // What is fixed would be replaced or closed.
    Fixed = 14,
    // What is given has not the form.
    BadForm = 15,
    // No header is near enough.
    BadHeader = 17,
}

// The refusal's number.
impl From<Refusal> for u8 {
    ghost from_gives = { λ r n. n ≡ number r };

    fn from(refusal: Refusal) -> u8 {
        refusal as u8
    }
}

// The refusal's number in decimal.
impl fmt::Display for Refusal {
    fn fmt<W: fmt::Write>(&self, f: &mut fmt::Formatter<W>) -> fmt::Result {
        write!(f, "{}", u8::from(*self))
    }
}
