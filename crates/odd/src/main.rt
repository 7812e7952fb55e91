// Runs lists of calls on states, buffers and journals of any content and any length.
//
// A case has nine lines: `DDDDD MMMMM PPPPP JJJJJ KK`, the lengths of deck, memory, protect list and
// journal and the number of calls, in decimal; the state, three lines; of deck, memory, protect list and
// journal the first 32 elements in digits 0-9 A-F, or all if fewer, a line each, those after them being 0;
// the calls, two bytes each. For each call a line is written with its answer and every register of both
// seats, and after the calls of a case the first 32 halfwords of memory and the first 32 words of the
// journal, or all if fewer.
#![tactic(auto)]

mod list;
mod start;

use list::{first, read_first};
use start::read_start;
use trial::{Ended, Joined, Program};

// The part of that length.
fn lend<T>(room: &mut [T], length: usize) -> Result<&mut [T], Ended> {
    room.get_mut(..length).ok_or(Ended::Malformed)
}

struct Cases;

impl Program for Cases {
    // The buffers have more elements than any limit of the machine.
    fn one_case(rt: HostRuntime) -> Result<(), Ended> {
        let head: [u8; 27] = trial::first_line(rt)?;
        let [d, m, p, j, k] = trial::numbers(10, &head, [5, 5, 5, 5, 2])?;
        let mut deck = [0u16; 40000];
        let mut memory = [0u16; 40000];
        let mut protect = [0u8; 40000];
        let mut journal = [0u32; 40000];
        let mut calls = [0u8; 200];
        // The state and the lists are read, each whatever became of the one before, and then looked at.
        let start = read_start(rt);
        let deck_read = read_first(rt, &mut deck, d as usize, 4);
        let memory_read = read_first(rt, &mut memory, m as usize, 4);
        let protect_read = read_first(rt, &mut protect, p as usize, 2);
        let journal_read = read_first(rt, &mut journal, j as usize, 8);
        let start = start?;
        deck_read
            .and(memory_read)
            .and(protect_read)
            .and(journal_read)?;
        let deck = lend(&mut deck, d as usize)?;
        let memory = lend(&mut memory, m as usize)?;
        let protect = lend(&mut protect, p as usize)?;
        let journal = lend(&mut journal, j as usize)?;
        let calls = lend(&mut calls, k as usize * 2)?;
        trial::read_line(rt, calls)?;
        let listed = trial::list(rt, calls, start, deck, memory, protect, journal);
        listed.written?;
        println!(rt; "{:04}", Joined(first(memory)))?;
        println!(rt; "{:08}", Joined(first(journal)))?;
        Ok(())
    }
}

fn main(rt: HostRuntime) {
    trial::each_case::<Cases>(rt, b"odd: a case is not of the form\n");
}
