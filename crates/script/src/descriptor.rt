// A table entry in the Recommendation's notation (000, table 2 of 6.6), as in {LCN1,RC4},{{LCN2,RC1},{LCN3,RC2},RC UCF}, turned into
// the numbers that the library reads: how many elements there are, and of each its repeat count, 0 for until closing, then 0 and a
// channel, or how many elements its list has, and these. What has that form and breaks a rule, or has more numbers than are lent, is
// given as no numbers, which the library refuses.
use text::{numbers, words};

// What is expected next: an element; an element, or the repeat count that ends a list; a comma, or the end of the text.
#[derive(Clone, Copy, Debug, PartialEq, Eq)]
pub enum Stage {
    Element,
    Next,
    Behind,
}

// How deep lists go, and what no number of an entry reaches.
const DEEPEST: usize = 3;

const PAST: u64 = 65536;

// A list that is being read: where its numbers begin, and how many elements it has so far.
#[derive(Clone, Copy, Debug, PartialEq, Eq)]
pub struct List {
    pub from: usize,
    pub elements: u64,
}

// An entry that is being read: the text that is still ahead; how many of its numbers stand in what is lent, or none once it has broken
// a rule; how many inner lists are open; and the top list and each open one, as far as lists may go. (No heap: lists go three deep. What is
// lent stands beside it, so that a draft can be copied.)
#[derive(Clone, Copy)]
pub struct Draft<'a> {
    pub stage: Stage,
    pub ahead: &'a [u8],
    pub used: Option<usize>,
    pub depth: usize,
    pub lists: [List; DEEPEST],
}

// Puts a number at place k, where there is such a place and it is a number of an entry, and tells the place behind it.
fn set(out: &mut [u16], k: usize, value: u64) -> Option<usize> {
    let value = u16::try_from(value).ok()?;
    if out.len() <= k {
        return None;
    }
    out[k] = value;
    Some(k + 1)
}

// Puts the two numbers of an inner list.
fn settle(out: &mut [u16], list: List, times: u64) -> Option<usize> {
    let next = set(out, list.from, times)?;
    set(out, next, list.elements)
}

impl<'a> Draft<'a> {
    // Passes `word`, where it stands next.
    fn pass(&mut self, word: &[u8]) -> Option<()> {
        self.ahead = self.ahead.strip_prefix(word)?;
        Some(())
    }

    // The number whose digits stand next.
    fn number(&mut self) -> Option<u64> {
        let (value, end) = numbers::digits(self.ahead, 0)?;
        self.ahead = words::ahead(self.ahead, end);
        Some(value)
    }

    // A repeat count and the brace that follows it: 0 for until closing, and no number of an entry for RC0.
    fn repeat(&mut self) -> Option<u64> {
        if self.pass(b"RC UCF}").is_some() {
            return Some(0);
        }
        self.pass(b"RC")?;
        let times = self.number()?;
        self.pass(b"}")?;
        Some(if times == 0 { PAST } else { times })
    }

    // One number more.
    fn push(&mut self, out: &mut [u16], value: u64) {
        if let Some(k) = self.used {
            self.used = set(out, k, value);
        }
    }

    // One element more in the list that is open.
    fn count(&mut self) {
        if self.depth < DEEPEST {
            let list = self.lists[self.depth];
            self.lists[self.depth] = List {
                elements: list.elements.saturating_add(1),
                ..list
            };
        }
    }

    // A channel and its repeat count, from behind the brace on.
    fn channel(&mut self, out: &mut [u16]) -> Option<()> {
        self.pass(b"LCN")?;
        let channel = self.number()?;
        self.pass(b",")?;
        let times = self.repeat()?;
        self.count();
        self.push(out, times);
        self.push(out, 0);
        self.push(out, channel);
        self.stage = Stage::Behind;
        Some(())
    }

    // The start of an inner list: its two numbers stand, and are known at its end.
    fn list(&mut self, out: &mut [u16]) -> Option<()> {
        let from = self.used;
        self.count();
        self.push(out, 0);
        self.push(out, 0);
        self.depth = self.depth.checked_add(1)?;
        self.stage = Stage::Element;
        match from {
            Some(from) if self.depth < DEEPEST => {
                self.lists[self.depth] = List { from, elements: 0 };
            }
            _ => self.used = None,
        }
        Some(())
    }

    // The end of an inner list: its repeat count.
    fn end(&mut self, out: &mut [u16]) -> Option<()> {
        let depth = self.depth;
        self.depth = depth.checked_sub(1)?;
        let times = self.repeat()?;
        self.stage = Stage::Behind;
        if self.used.is_some() && depth < DEEPEST {
            let list = self.lists[depth];
            if settle(out, list, times).is_none() {
                self.used = None;
            }
        }
        Some(())
    }

    // What stands next: a comma, the start of an element, or the end of a list.
    fn turn(&mut self, out: &mut [u16]) -> Option<()> {
        if self.stage == Stage::Behind {
            self.stage = Stage::Next;
            return self.pass(b",");
        }
        if self.pass(b"{").is_some() {
            return if self.ahead.starts_with(b"{") {
                self.list(out)
            } else {
                self.channel(out)
            };
        }
        if self.stage == Stage::Next {
            return self.end(out);
        }
        None
    }

    // How many numbers the entry has, once it is read, 0 for one that breaks a rule.
    fn finish(&self, out: &mut [u16]) -> Option<usize> {
        if self.stage != Stage::Behind || !self.ahead.is_empty() || 0 < self.depth {
            return None;
        }
        let placed = set(out, 0, self.lists[0].elements);
        Some(placed.and(self.used).unwrap_or(0))
    }
}

// Puts the numbers of an entry at the front of out: how many they are, 0 for an entry that breaks a rule; none where the text has not
// the form. A turn passes one octet at least, so there are no more of them than octets.
pub fn read(text: &[u8], out: &mut [u16]) -> Option<usize> {
    let mut draft = Draft {
        stage: Stage::Element,
        ahead: text,
        used: Some(1),
        depth: 0,
        lists: [List {
            from: 0,
            elements: 0,
        }; DEEPEST],
    };
    for _ in 0..text.len() {
        if draft.ahead.is_empty() {
            break;
        }
        draft.turn(out)?;
    }
    draft.finish(out)
}
