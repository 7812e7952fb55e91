// Asks why the next step is stopped: each case is a deck text, a number of steps and a cell to change.
//
// A case is a line `LLLLL SSSSS PPPPP VVVVV R A` and a text of L bytes. Seat R runs S steps, cell P of the
// deck becomes V (none where P is past the deck), and then the tool is asked about seat A. For each case
// a line is written with the number and what it names.
#![tactic(auto)]

use cause::{Cell, Named};
use std::fmt;
use trial::{Desk, Ended, Program, Words};

// What a cause names, after a blank; nothing where it names nothing.
#[derive(Clone, Copy)]
struct Shown(Named);

impl fmt::Display for Shown {
    fn fmt<W: fmt::Write>(&self, f: &mut fmt::Formatter<W>) -> fmt::Result {
        match self.0 {
            Named::Nothing => Ok(()),
            Named::Cell(Cell::Code) => f.write_str(" code"),
            Named::Cell(Cell::R1) => f.write_str(" r1"),
            Named::Cell(Cell::R2) => f.write_str(" r2"),
            Named::Cell(Cell::At) => f.write_str(" at"),
            Named::Address(a) => write!(f, " {a}"),
            Named::OneWord(a) => write!(f, " {}", Words(&[a])),
            Named::TwoWords(a, b) => write!(f, " {}", Words(&[a, b])),
            Named::FourWords(a, b, c, d) => write!(f, " {}", Words(&[a, b, c, d])),
        }
    }
}

struct Cases;

impl Program for Cases {
    // The steps, the change and the question.
    fn one_case(rt: HostRuntime) -> Result<(), Ended> {
        // Before the head is read, so that it is blanked once.
        let mut space = [0u8; 100000];
        let head: [u8; 28] = trial::first_line(rt)?;
        let [length] = trial::numbers(10, &head, [5])?;
        let text = trial::read_text(rt, &mut space, length as usize)?;
        let [_, steps, place, value, running, asked] = trial::numbers(
            10,
            &head,
            [5, 5, 5, 5, 1, 1],
        )?;
        let mut desk = Desk::<16384, 4096>::blank();
        let count = desk.read(text)?;
        let deck = desk.cells.get_mut(..count).ok_or(Ended::Malformed)?;
        let memory = &mut desk.memory;
        let journal = &mut desk.journal;
        let start = machine::fresh();
        let ran = machine::run(start, running, deck, memory, &desk.protect, journal, steps);
        trial::change(deck, place, value);
        let cause = cause::why(ran.state, asked, deck, memory, &desk.protect, journal);
        println!(rt; "{}{}", cause.number, Shown(cause.named))?;
        Ok(())
    }
}

fn main(rt: HostRuntime) {
    trial::each_case::<Cases>(rt, b"why: a case is not of the form\n");
}
