// The buffers that are lent to the library: each holds what the longest record can have, and one octet more, by which a file that is longer
// is known.
ghost use Rattle.std.specs.Prelude.{◌≡◌, length};

use record::LONGEST_RECORD;

// For a record, or for the octets of its units.
pub const OCTETS: usize = LONGEST_RECORD + 1;

// For the numbers of its units: a unit has ten octets in front of its own, of which there is one at least; and four numbers.
pub const NUMBERS: usize = OCTETS / 11 * 4;

// A buffer of zeros. The contract gives its length, which lending it needs: a proof then never looks at a million of them.
pub fn buffer<T: Copy + Default, const N: usize>() -> [T; N]
    ensures { length result ≡ N }
{
    [T::default(); N]
}
