// Asks where a deck reads a register that is not set: each case is a deck text and the part of it that is lent.
//
// A case is a line `LLLLL CCCCC PPPPP VVVVV` and a text of L bytes. C cells of the deck are lent, 0 past the orders
// read, and cell P of them is V (none where P is past them). For each case a line is written with 1, 5 or none, or
// with the order and the register.
#![tactic(auto)]

use std::{fmt, io};
use trial::{Desk, Ended, Program};
use unset::{Refusal, Register, Unset};

#[derive(Clone, Copy)]
struct Shown(Register);

impl fmt::Display for Shown {
    fn fmt<W: fmt::Write>(&self, f: &mut fmt::Formatter<W>) -> fmt::Result {
        match self.0 {
            Register::Float(r) => write!(f, "float {r}"),
            Register::Set0(r) => write!(f, "set0 {r}"),
            Register::Set1(r) => write!(f, "set1 {r}"),
        }
    }
}

fn show(rt: HostRuntime, found: Result<Option<Unset>, Refusal>) -> io::Result<()> {
    match found {
        Ok(Some(Unset { order, register })) => println!(rt; "{order} {}", Shown(register)),
        Ok(None) => println!(rt; "none"),
        Err(refusal) => println!(rt; "{}", u8::from(refusal)),
    }
}

struct Cases;

impl Program for Cases {
    // More cells than the largest deck has.
    fn one_case(rt: HostRuntime) -> Result<(), Ended> {
        // Before the head is read, so that it is blanked once.
        let mut space = [0u8; 100000];
        let head: [u8; 24] = trial::first_line(rt)?;
        let [length] = trial::numbers(10, &head, [5])?;
        let text = trial::read_text(rt, &mut space, length as usize)?;
        let [_, lent, place, value] = trial::numbers(10, &head, [5, 5, 5, 5])?;
        let mut desk = Desk::<20000, 0>::blank();
        desk.read(text)?;
        let deck = desk.cells.get_mut(..lent as usize).ok_or(Ended::Malformed)?;
        trial::change(deck, place, value);
        show(rt, unset::first_unset(deck))?;
        Ok(())
    }
}

fn main(rt: HostRuntime) {
    trial::each_case::<Cases>(rt, b"reads: a case is not of the form\n");
}
