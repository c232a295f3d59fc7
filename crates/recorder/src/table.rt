// The table below the units, as lines that begin with #: what the record's own trailer says. The reader has found it right.
ghost use Rattle.std.specs.Prelude.{◌<◌};

use print::Output;
use std::fmt::Write;

// The trailer of a record, its places, and one of them.
const TRAILER: usize = 236;

const PLACES: usize = 16;

const PLACE: usize = 14;

// Puts the line of the channel that has place j, unless the place is unused.
fn row<R: Print + Eprint>(out: &mut Output<'_, R>, trailer: &[u8; TRAILER], j: usize)
    requires { j < PLACES }
{
    let at = PLACE * j;
    let channel = octets::two(trailer, at);
    let units = octets::four(trailer, at + 6);
    let damaged = octets::four(trailer, at + 10);
    let last = octets::four(trailer, at + 2);
    if units != 0 {
        let _ = writeln!(out, "#{channel:8}{units:8}{damaged:9}{last:13}");
    }
}

// Puts the table of a record: a head, the channels, and how many units there are, in how many octets.
pub fn put<R: Print + Eprint>(out: &mut Output<'_, R>, record: &[u8]) {
    let Some(trailer) = record.last_chunk::<TRAILER>() else {
        return;
    };
    let _ = writeln!(out, "# channel   units  damaged  last offset");
    for j in 0..PLACES {
        row(out, trailer, j);
    }
    let units = octets::four(trailer, 224);
    let before = octets::four(trailer, 228);
    let _ = writeln!(
        out,
        "#   total{units:8}  in {before} octets before the trailer"
    );
}
