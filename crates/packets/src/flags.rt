// The flag of 16 bits (A.2.1.1) and its ones' complement (B.3.3).
ghost use Rattle.std.specs.Prelude.{◌≡◌, drop};
ghost use Rattle.packets.specs.Flag.{flag_of, is_complement, flag_in};

// The two forms of the flag.
#[derive(Clone, Copy, Debug, PartialEq, Eq)]
pub enum Flag {
    Plain,
    Complemented,
}

// The complement where that is asked for.
impl From<bool> for Flag {
    ghost from_gives = { λ complemented f. is_complement f ≡ complemented };

    fn from(complemented: bool) -> Flag {
        if complemented {
            Flag::Complemented
        } else {
            Flag::Plain
        }
    }
}

impl Flag {
    pub fn octets(self) -> [u8; 2]
        ensures { result ≡ flag_of (is_complement self) }
    {
        match self {
            Flag::Plain => [0xE1, 0x4D],
            Flag::Complemented => [0x1E, 0xB2],
        }
    }
}

// Which form stands at a place, if one does.
#[tactic(auto, using(crate::proofs::Standing::standing), unfolding(crate::specs::Flag::flag_in))]
pub fn at(octets: &[u8], place: usize) -> Option<Flag>
    ensures { result ≡ flag_in (drop place octets.now) }
{
    let here = octets::front(octets.get(place..)?, 2);
    if octets::same(here, &Flag::Plain.octets()) {
        Some(Flag::Plain)
    } else if octets::same(here, &Flag::Complemented.octets()) {
        Some(Flag::Complemented)
    } else {
        None
    }
}
