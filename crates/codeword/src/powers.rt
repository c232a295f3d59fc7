// The powers of α in a row, laid out once for each call of the encoder or the decoder, and lent on.
ghost use Rattle.std.specs.Prelude.{◌≡◌, ◌+◌, ◌≤◌, ◌<◌, get_or};
ghost use Rattle.field.specs.Octet;
ghost use Rattle.field.specs.Octet.Table.{laid, Laid, Doublings};
ghost use Rattle.codeword.specs.Lanes.{lanes, Lanes, along, Reached, Turned};

use crate::lanes;
use crate::lanes::LANES;
use field::LAID;
use std::array;

// Such a row.
#[derive(Drop)]
pub(crate) struct Powers {
    row: [u8; LAID],
    ghost laid: { Laid row },
}

impl Powers {
    pub(crate) fn new() -> Powers {
        Powers {
            row: field::powers(),
        }
    }

    // α to the k.
    pub(crate) fn at(&self, k: usize) -> u8
        requires { k < laid }
        ensures { result ≡ Octet.power Octet.α k }
    {
        self.row[k]
    }

    // The 16 powers α^k, α^(k + 1), ..
    pub(crate) fn along(&self, k: usize) -> [u8; LANES]
        requires { k + lanes ≤ laid }
        ensures { Lanes (along k) result }
    {
        lanes::load(&self.row, k)
    }

    // α^k b.
    fn times(&self, k: usize, b: u8) -> u8
        requires { Doublings k }
        ensures { result ≡ Octet.product (Octet.power Octet.α k) b }
    {
        field::product_at(&self.row, k, b)
    }

    // A turn of Horner's rule at the 16 points α^k, α^(k + 1), ..: lane i becomes α^(k + i) a + c.
    pub(crate) fn ahead(&self, a: [u8; LANES], k: usize, c: [u8; LANES]) -> [u8; LANES]
        requires { Reached k }
        ensures { Turned (along k) a (λ i. get_or c i 0) result }
    {
        array::from_fn(|i| field::sum(self.times(k + i, a[i]), c[i]))
    }
}
