// The adaptation layers of H.223 (000, clause 7): AL1, AL2 and AL1M.

#![tactic(auto)]

pub mod al1; // al1.rt: AL1
pub mod al1m; // al1m.rt: AL1M
pub mod al2; // al2.rt: AL2
mod setting; // setting.rt: AL1M's settings

ghost use Rattle.std.specs.Prelude.{◌≡◌};
ghost use Rattle.adaptation.specs.Handed.{badge_number};

// The octets of the longest unit of AL1 and AL2; in AL2 its number and its check count too.
pub const LONGEST_UNIT: usize = 1024;

// What is known of a unit that is handed up, and document 01's number for it ("AL1M units").
#[derive(Clone, Copy, Debug, PartialEq, Eq)]
pub enum Badge {
    Clean = 0,
    Corrected = 1,
    OutOfReach = 2,
    CheckFailed = 3,
    Unchecked = 4,
}

// The badge's number.
impl From<Badge> for u8 {
    ghost from_gives = { λ b n. n ≡ badge_number b };

    fn from(badge: Badge) -> u8 {
        badge as u8
    }
}
