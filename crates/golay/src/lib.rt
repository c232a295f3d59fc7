// The extended Golay code of 12 bits in 24 (000, B.3.2.1.3), by itself: a word's bits 1 to 12 are the data, its bits 13 to 24 the parity
// P1 to P12. Nothing here knows what the data are.
#![tactic(auto)]

ghost use Rattle.std.specs.Prelude.{◌≡◌};
ghost use Rattle.golay.specs.Code as code;
ghost use Rattle.golay.specs.Search.{Searched};

// How many bits of data a word has, and as many of parity.
pub const DATA_BITS: u32 = 12;

// How many wrong bits are put right.
pub const MOST_WRONG: u32 = 3;

// The rows of the matrix, each as a number: the bit printed first is its lowest. Row 1, 1 0 1 0 1 1 1 0 0 0 1 1, is
// 1 + 4 + 16 + 32 + 64 + 1024 + 2048 = 3189.
const ROWS: [u32; 12] = [
    3189, 1183, 3403, 1763, 2483, 2918, 3788, 493, 986, 1972, 2845, 3642,
];

// The parity of 12 bits of data: the sum of the rows at its ones. Higher bits do not count.
pub fn parity(message: u32) -> u32
    ensures { result ≡ code.parity message }
{
    let mut sum = 0;
    let mut bits = message;
    for row in ROWS {
        sum ^= (bits & 1) * row;
        bits >>= 1;
    }
    sum
}

// Which bits of data to change, from bit `from` on (0 is the first) and at most `left` of them, so that with the ones of the syndrome that are then
// left no more than `left` bits are wrong.
fn search(syndrome: u32, from: usize, left: u32) -> Option<u32>
    ensures { Searched syndrome from left result }
{
    if syndrome.count_ones() <= left {
        return Some(0);
    }
    let fewer = left.checked_sub(1)?;
    for i in from..ROWS.len() {
        if let Some(u) = search(syndrome ^ ROWS[i], i + 1, fewer) {
            return Some(u + (1 << i));
        }
    }
    None
}

// The data whose code word lies within three bits of a word of 24, if there are any. Of a larger number, each further one is a wrong bit.
#[tactic(auto, using(crate::proofs::Finding::nearest_by, crate::proofs::Finding::data_bits))]
pub fn find(word: u32) -> Option<u32>
    ensures { result ≡ code.nearest word }
{
    let data = word & 4095;
    let syndrome = parity(data) ^ (word >> DATA_BITS);
    Some(data ^ search(syndrome, 0, MOST_WRONG)?)
}
