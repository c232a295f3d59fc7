// The form of an entry (000, 6.4.1.1), coded flat in prefix order: the number of elements, then the elements.
// An element is its repeat count (0: until closing), then 0 and a channel, or the number of inner elements and those.
ghost use Rattle.std.specs.Prelude.{◌≡◌};
ghost use Rattle.table.specs.Cursor.{head_at, element_at, list_at, entry_read};
ghost use Rattle.table.specs.Form.{is_entry};

// The numbers for which an entry has room in the table: no entry has more.
pub const LONGEST_ENTRY: usize = 97;

// The most elements that an entry has, counted at every depth, and how deep lists go below the top one.
pub const MOST_ELEMENTS: usize = 32;

pub const DEPTH: usize = 2;

// Where reading goes on, and how many elements may still come.
#[derive(Clone, Copy, Debug, PartialEq, Eq)]
pub struct Cursor {
    pub at: usize,
    pub left: usize,
}

// What an element's own numbers say: a channel, and what is read after it; or an inner list of so many elements, from where they begin.
#[derive(Clone, Copy, Debug, PartialEq, Eq)]
pub enum Head {
    Channel(Cursor),
    Inner(u16, Cursor),
}

// The numbers of an element, if they are good; `least` is the least repeat count.
#[tactic(auto, using(crate::proofs::Heads::repeat_at, crate::proofs::Heads::count_at), unfolding(crate::specs::Cursor::head_at))]
fn numbers(s: &[u16], from: Cursor, least: u16) -> Option<Head>
    ensures { result ≡ head_at s.now from.at from.left least }
{
    let [repeat, count, _, ..] = s.get(from.at..)? else {
        return None;
    };
    let left = from.left.checked_sub(1)?;
    if *repeat < least {
        return None;
    }
    match *count {
        0 => Some(Head::Channel(Cursor {
            at: from.at + 3,
            left,
        })),
        1 => None,
        n => Some(Head::Inner(
            n,
            Cursor {
                at: from.at + 2,
                left,
            },
        )),
    }
}

// An element, in a list from which lists may go `depth` deeper. It is inlined, and the list called: where it was a call of its own, to make a
// payload of 169 slots took a quarter more instructions.
#[inline(always)]
#[cycle(element_list)]
#[tactic(auto, using(crate::proofs::Reading::readings))]
pub fn element(s: &[u16], from: Cursor, depth: usize, least: u16) -> Option<Cursor>
    ensures { result ≡ element_at s.now depth from.at from.left least }
{
    match numbers(s, from, least)? {
        Head::Channel(next) => Some(next),
        Head::Inner(count, first) => list(s, first, depth.checked_sub(1)?, count),
    }
}

// `count` elements, each at least once.
#[inline(never)]
#[cycle(element_list)]
#[tactic(auto, using(crate::proofs::Reading::list_turn, crate::proofs::Reading::none_left))]
fn list(s: &[u16], from: Cursor, depth: usize, count: u16) -> Option<Cursor>
    ensures { result ≡ list_at s.now depth count from.at from.left }
{
    let mut next = from;
    for _ in 0..count {
        next = element(s, next, depth, 1)?;
    }
    Some(next)
}

// The elements of an entry. Only the last may repeat until closing.
#[tactic(auto, unfolding(crate::specs::Cursor::entry_read))]
fn read(s: &[u16]) -> Option<Cursor>
    ensures { result ≡ entry_read s.now }
{
    let before = s.first()?.checked_sub(1)?;
    let first = Cursor {
        at: 1,
        left: MOST_ELEMENTS,
    };
    let last = list(s, first, DEPTH, before)?;
    element(s, last, DEPTH, 0)
}

// Whether the numbers are those of an entry, and nothing stands behind them.
pub fn is_entry(s: &[u16]) -> bool
    ensures { result ≡ is_entry s.now }
{
    read(s).is_some_and(|end| end.at == s.len())
}
