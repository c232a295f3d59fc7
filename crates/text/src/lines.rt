// A line, octet by octet, from a source of any length: one line at a time is in memory.
ghost use Rattle.std.specs.Prelude.{◌≡◌, false, List, [], ℕ};
ghost use Rattle.text.specs.Lines.{SoFar, Takes};

// How much of a line is read: how many of its octets stand in the lent line, whether there are more than it holds, and whether the
// line has come to its end. (No `Option` for the length: `SoFar` tells it of a line too that has more.)
#[derive(Clone, Copy, Debug, PartialEq, Eq)]
pub struct Reading {
    pub length: usize,
    pub over: bool,
    pub whole: bool,
}

// The beginning of a line.
pub fn begin() -> Reading
    ensures { ((line : List ℕ) → SoFar result line []) × (result.whole ≡ false) }
{
    Reading {
        length: 0,
        over: false,
        whole: false,
    }
}

// One octet more. A newline ends the line, and is no octet of it.
pub fn take(r: Reading, line: &mut [u8], octet: u8) -> Reading
    ensures { Takes r line.old octet result line.new }
{
    if octet == b'\n' {
        return Reading { whole: true, ..r };
    }
    if line.len() <= r.length {
        return Reading { over: true, ..r };
    }
    line[r.length] = octet;
    Reading {
        length: r.length + 1,
        ..r
    }
}
