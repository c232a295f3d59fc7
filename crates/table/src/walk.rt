// The slots of an entry, laid down for a payload: the channel of each and how many octets it has, cut where the payload ends.
ghost use Rattle.std.specs.Prelude.{◌≡◌, [], ◌∷◌, ◌+◌, ◌≤◌, length, get_or};
ghost use Rattle.table.specs.Slots.{passes, copies, cut, payload_slots};
ghost use Rattle.table.specs.Cursor.{skip};
ghost use Rattle.table.specs.Form.{count_as};
ghost use Rattle.table.specs.Table.{longest_payload};
ghost use Rattle.table.specs.Lays.{HasRoom, LaysOn, LaysInto, element_slots, list_slots};

use crate::form;
use crate::form::Cursor;

// The passes of what repeats until closing: as many as the longest payload has octets.
pub const ENDLESS: u16 = 255;

// How many slots are laid down, and how many octets of the payload no slot covers yet.
#[derive(Clone, Copy, Debug, PartialEq, Eq)]
pub struct Laid {
    pub count: usize,
    pub left: usize,
}

// The number that stands `plus` after `at`, or 0.
fn number(s: &[u16], at: usize, plus: usize) -> u16
    ensures { result ≡ get_or s.now (at + plus) 0 }
{
    s.get(at..)
        .and_then(|rest| rest.get(plus))
        .copied()
        .unwrap_or(0)
}

// How often an element is passed.
fn times(repeat: u16) -> u16
    ensures { result ≡ passes longest_payload (count_as repeat) }
{
    if repeat == 0 { ENDLESS } else { repeat }
}

// The place after an element.
#[tactic(auto, unfolding(crate::specs::Cursor::skip))]
fn after(s: &[u16], at: usize, depth: usize) -> usize
    ensures { result ≡ skip s.now depth at }
{
    let from = Cursor {
        at,
        left: form::MOST_ELEMENTS,
    };
    form::element(s, from, depth, 0).map_or(at, |next| next.at)
}

// A payload's slots as they are laid down: the channel of each stands in one list, how many octets it has in another.
#[derive(Drop)]
struct Laying<'a> {
    channels: &'a mut [u16],
    lengths: &'a mut [u16],
    laid: Laid,
}

impl Laying<'_> {
    // A slot of a channel, cut to the octets that are left.
    fn slot(&mut self, channel: u16, octets: u16)
        requires { HasRoom self.old }
        ensures { LaysOn self.old (cut self.old.laid.left (record { channel = channel; octets = octets } ∷ [])) self.new }
    {
        let left = self.laid.left;
        if left == 0 {
            return;
        }
        let k = self.laid.count;
        let n = left.min(octets as usize);
        self.channels[k] = channel;
        self.lengths[k] = n as u16;
        self.laid = Laid {
            count: k + 1,
            left: left - n,
        };
    }

    // The element at `at`: its channel's slot, or its list, as often as it is passed.
    #[cycle(laying)]
    fn element(&mut self, s: &[u16], at: usize, depth: usize)
        requires { HasRoom self.old }
        ensures { LaysOn self.old (cut self.old.laid.left (element_slots s.now depth at)) self.new }
    {
        let n = times(number(s, at, 0));
        let count = number(s, at, 1);
        if count == 0 {
            self.slot(number(s, at, 2), n);
        } else if 0 < depth {
            self.passes(s, at + 2, depth - 1, count, n);
        }
    }

    // n passes of a list. Once one has laid nothing, either no octet is left or the list has no slot, and the others lay nothing too.
    #[cycle(laying)]
    fn passes(&mut self, s: &[u16], at: usize, depth: usize, count: u16, n: u16)
        requires { HasRoom self.old }
        ensures { LaysOn self.old (cut self.old.laid.left (copies n (list_slots s.now depth count at))) self.new }
    {
        for _ in 0..n {
            let left = self.laid.left;
            self.list(s, at, depth, count);
            if self.laid.left == left {
                return;
            }
        }
    }

    // `count` elements, one behind another. Once one has laid nothing, no octet is left or the numbers are no list, and the others lay
    // nothing too.
    #[cycle(laying)]
    fn list(&mut self, s: &[u16], at: usize, depth: usize, count: u16)
        requires { HasRoom self.old }
        ensures { LaysOn self.old (cut self.old.laid.left (list_slots s.now depth count at)) self.new }
    {
        let mut place = at;
        for _ in 0..count {
            let left = self.laid.left;
            self.element(s, place, depth);
            if self.laid.left == left {
                return;
            }
            place = after(s, place, depth);
        }
    }
}

// The slots of a payload of n octets under entry s.
pub fn lay(s: &[u16], n: usize, channels: &mut [u16], lengths: &mut [u16]) -> Laid
    requires { (n ≤ longest_payload) × (n ≤ length channels.old) × (n ≤ length lengths.old) }
    ensures { LaysInto (record { count = 0; left = n }) (payload_slots s.now n) result channels lengths }
{
    let mut laying = Laying {
        channels,
        lengths,
        laid: Laid { count: 0, left: n },
    };
    laying.list(s, 1, form::DEPTH, number(s, 0, 0));
    laying.laid
}
