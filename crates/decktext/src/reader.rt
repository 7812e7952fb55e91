// A text and a place in it, and the line at the place.
//
// The methods of the struct that holds the text are thin, and the work is done in `line_at`, on plain
// parameters.
ghost use Rattle.std.specs.Prelude.{◌≡◌, ◌≤◌, IsTrue, ◌↔◌, length};
ghost use Rattle.decktext.specs.Walk.{LineFrom, LineRead};

use crate::span::find;

// The text, and the place where the next line begins.
#[derive(Clone, Copy)]
pub struct LineReader<'a> {
    pub text: &'a [u8],
    pub at: usize,
}

impl<'a> LineReader<'a> {
    pub fn new(text: &'a [u8]) -> Self
        ensures { (result.text ≡ text.entry) × (result.at ≡ 0) }
    {
        LineReader { text, at: 0 }
    }

    pub fn is_done(&self) -> bool
        ensures { IsTrue result ↔ (length self.now.text.now ≤ self.now.at) }
    {
        self.text.len() <= self.at
    }

    // The line at the place, which is after it then; none where no LF ends the line, and the place is the text's end.
    pub fn read(&mut self) -> Option<&'a [u8]>
        requires { self.old.at ≤ length self.old.text.now }
        ensures { (self.new.text ≡ self.old.text) × LineRead self.old.text.now self.old.at self.new.at result }
    {
        let text = self.text;
        let at = self.at;
        let LineSpan { end, next } = line_at(text, at);
        self.at = next;
        if end == text.len() {
            return None;
        }
        Some(&text[at..end])
    }
}

// Where a line ends and where the next one begins.
#[derive(Clone, Copy)]
pub struct LineSpan {
    pub end: usize,
    pub next: usize,
}

pub fn line_at(text: &[u8], at: usize) -> LineSpan
    ensures { LineFrom text.now at result }
{
    let n = text.len();
    if n < at {
        return LineSpan { end: n, next: n };
    }
    let end = find(text, at, n, b'\n');
    if end < n {
        LineSpan { end, next: end + 1 }
    } else {
        LineSpan { end, next: end }
    }
}
