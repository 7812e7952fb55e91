// Asks for the shortest stretch that still stops: each case is a deck text, a seat, a number of steps and the journal's length.
//
// A case is a line `LLLLL X SSSSS JJJJJ` and a text of L bytes. Seat X runs S steps, with a journal of J words, and then the
// tool is asked about seat X. For each case a line is written with the number of the refusal, or with 0, the first order, the
// last and the stop; then one with the used count and both seats, and one with the first 32 halfwords of memory.
#![tactic(auto)]

use std::io;
use stretch::{Refusal, Stretch};
use trial::{Desk, Ended, Joined, Program, Standing};

fn show(rt: HostRuntime, found: Result<Stretch, Refusal>) -> io::Result<()> {
    match found {
        Ok(Stretch { first, last, stop }) => println!(rt; "0 {first} {last} {}", u8::from(stop)),
        Err(refusal) => println!(rt; "{}", u8::from(refusal)),
    }
}

// The steps and the question, with more words of journal than the largest has.
fn ask(rt: HostRuntime, text: &[u8], seat: u32, steps: u32, words: usize) -> Result<(), Ended> {
    let desk = &mut Desk::<16384, 20000>::blank();
    let count = desk.read(text)?;
    let deck = &desk.cells[..count];
    let memory = &mut desk.memory;
    let protect = &desk.protect;
    let journal = desk.journal.get_mut(..words).ok_or(Ended::Malformed)?;
    let start = machine::fresh();
    let ran = machine::run(start, seat, deck, memory, protect, journal, steps);
    let answer = stretch::shortest(ran.state, seat, deck, memory, protect, journal);
    show(rt, answer.found)?;
    println!(rt; "{}", Standing(&answer.state))?;
    println!(rt; "{:04}", Joined(&memory[..32]))?;
    Ok(())
}

struct Cases;

impl Program for Cases {
    fn one_case(rt: HostRuntime) -> Result<(), Ended> {
        // Before the head is read, so that it is blanked once.
        let mut space = [0u8; 100000];
        let head: [u8; 20] = trial::first_line(rt)?;
        let [length] = trial::numbers(10, &head, [5])?;
        let text = trial::read_text(rt, &mut space, length as usize)?;
        let [_, seat, steps, words] = trial::numbers(10, &head, [5, 1, 5, 5])?;
        ask(rt, text, seat, steps, words as usize)
    }
}

fn main(rt: HostRuntime) {
    trial::each_case::<Cases>(rt, b"stretches: a case is not of the form\n");
}
