// Reads a deck text from standard input, runs it, and writes the listing; tells on standard error why a
// text is refused.
#![tactic(auto)]

use decktext::Refusal;
use std::fmt;
use std::io::Print;
use stream::read_all;

// Why a text is refused, beside the two numbers of the listing.
#[derive(Clone, Copy)]
struct Told(Refusal);

impl fmt::Display for Told {
    fn fmt<W: fmt::Write>(&self, f: &mut fmt::Formatter<W>) -> fmt::Result {
        match self.0 {
            Refusal::Malformed(line) => write!(
                f,
                "line {line}: not of its form: one blank between values, capitals, no leading zeros, LF at the end"
            ),
            Refusal::NoRoom(0) => f.write_str("the text has more than 32,768 bytes"),
            Refusal::NoRoom(line) => write!(
                f,
                "line {line}: no room: at most 4,096 orders, and addresses below 4,096"
            ),
        }
    }
}

// One byte more than a text may have is read, so that a longer text is seen to be one.
fn main(rt: HostRuntime) {
    let mut text = [0u8; 32769];
    let input = read_all(&mut rt.stdin(), &mut text);
    if input.failed {
        let _ = eprintln!(rt; "desk: standard input cannot be read");
        return;
    }
    let text = &text[..input.count];
    let out = listing::answer(text);
    if rt.stdout().write_all(out.as_bytes()).is_err() {
        let _ = eprintln!(rt; "desk: standard output cannot be written");
    }
    if let Err(refusal) = listing::reading(text) {
        let _ = eprintln!(rt; "desk: {}", Told(refusal));
    }
}
