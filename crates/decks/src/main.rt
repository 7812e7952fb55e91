// Runs every deck text of a file of cases, and writes what `desk` writes for each.
//
// A case is a line of five digits, the text's length in bytes, and the text.
#![tactic(auto)]

ghost use Rattle.std.specs.Prelude.{◌≤◌, ◌<◌, length, IfSome};

use std::io::Print;
use stream::read_all;

// The number of five digits and a line feed, or none for any other line.
// Kept: this, `Ended` and the loop beside those of trial, on which this crate does not stand: it tells a length that is
// not of the form from a text that is too short, and needs nothing else of machine's callers.
fn length_of(line: &[u8; 6]) -> Option<usize>
    ensures { IfSome result (λ n. n < 100000) }
{
    if line[5] != b'\n' {
        return None;
    }
    let mut n: usize = 0;
    for b in &line[..5] {
        if !b.is_ascii_digit() {
            return None;
        }
        n = (n * 10 + (*b - b'0') as usize) % 100000;
    }
    Some(n)
}

// Why no text follows.
#[derive(Clone, Copy, PartialEq, Eq)]
enum Ended {
    // the input has no more, or a line is not written
    Quietly,
    Length,
    Text,
}

// Runs the text of n bytes that follows.
fn one_text(rt: HostRuntime, n: usize, space: &mut [u8]) -> Result<(), Ended>
    requires { n ≤ length space.old }
{
    let text = &mut space[..n];
    let got = read_all(&mut rt.stdin(), text).count;
    if got < n {
        return Err(Ended::Text);
    }
    let out = listing::answer(text);
    rt.stdout()
        .write_all(out.as_bytes())
        .map_err(|_| Ended::Quietly)
}

// A read that fails is the input's end.
fn one_case(rt: HostRuntime) -> Result<(), Ended> {
    let mut line = [0u8; 6];
    let got = read_all(&mut rt.stdin(), &mut line).count;
    if got == 0 {
        return Err(Ended::Quietly);
    }
    let n = length_of(&line).ok_or(Ended::Length)?;
    let mut space = [0u8; 100000];
    one_text(rt, n, &mut space)
}

fn complain(rt: HostRuntime, why: Ended) {
    let what: &[u8] = match why {
        Ended::Quietly => return,
        Ended::Length => b"decks: a length is not of the form\n",
        Ended::Text => b"decks: a text is too short\n",
    };
    let _ = rt.stderr().write_all(what);
}

// A proved loop has to end: the turns are more than any run uses up.
fn main(rt: HostRuntime) {
    for _ in 0..u64::MAX {
        if let Err(why) = one_case(rt) {
            complain(rt, why);
            return;
        }
    }
}
