// A line's words, which one space or more part. A place is counted from the line's front.
ghost use Rattle.std.specs.Prelude.{◌≡◌, ◌+◌, ◌≤◌, leb, length, drop};
ghost use Rattle.std.specs.List.{prefix_len};
ghost use Rattle.text.specs.Words.{is_space, is_letter, word_start, word_at, word_end};

// A line, and the place from which on its words are still to be read.
#[derive(Clone, Copy, Debug)]
pub struct Words<'a> {
    pub line: &'a [u8],
    pub at: usize,
}

// What stands from a place on: nothing, where the text has ended before. A place in it is one in the text, so it fits.
pub fn ahead(text: &[u8], at: usize) -> &[u8]
    ensures rest { result.now ≡ drop at text.now }
    ensures fits { at + length result.now ≤ usize.MAX }
{
    &text[at.min(text.len())..]
}

// How many spaces a text begins with.
fn spaces(text: &[u8]) -> usize
    ensures { result ≡ prefix_len is_space text.now }
{
    text.iter().take_while(|c| **c == b' ').count()
}

// .. and how many octets that are none.
fn letters(text: &[u8]) -> usize
    ensures { result ≡ prefix_len is_letter text.now }
{
    text.iter().take_while(|c| **c != b' ').count()
}

// The first place from `at` on that is no space, or the end of the line.
#[tactic(auto, using(crate::proofs::Leading::leading))]
fn start(line: &[u8], at: usize) -> usize
    ensures { result ≡ word_start line.now at }
{
    at + spaces(ahead(line, at))
}

impl<'a> Words<'a> {
    // All words of a line.
    pub fn of(line: &'a [u8]) -> Words<'a>
        ensures line { result.line ≡ line.entry }
        ensures place { result.at ≡ 0 }
    {
        Words { line, at: 0 }
    }

    // The next word; one of no octets, where there is none.
    #[tactic(auto, using(crate::proofs::Leading::leading))]
    pub fn next(&mut self) -> &'a [u8]
        ensures word { result.now ≡ word_at self.old.line.now self.old.at }
        ensures place { self.new.at ≡ word_end self.old.line.now self.old.at }
        ensures line { self.new.line ≡ self.old.line }
    {
        let from = start(self.line, self.at);
        let text = ahead(self.line, from);
        let word = &text[..letters(text)];
        self.at = from + word.len();
        word
    }

    // Whether there is no word any more.
    pub fn ended(&self) -> bool
        ensures { result ≡ leb (length self.now.line.now) (word_start self.now.line.now self.now.at) }
    {
        self.line.len() <= start(self.line, self.at)
    }

    // All that is still to be read, from the next word to the end of the last, with the spaces that part them.
    pub fn rest(&self) -> &'a [u8] {
        let text = ahead(self.line, start(self.line, self.at));
        let end = text
            .iter()
            .rposition(|c| *c != b' ')
            .map_or(0, |last| last + 1);
        &text[..end]
    }
}
